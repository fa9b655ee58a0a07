//! White space between the words of a line.
ghost use Rattle.std.specs.Prelude.{◌≡◌, ◌||◌, ◌==◌, position};
ghost use Rattle.capture_vcd.specs.Dump.{is_space};

fn is_space(byte: u8) -> bool
    ensures { result ≡ is_space byte }
{
    byte == b' ' || byte == b'\t' || byte == b'\r'
}

/// Where the first space of a line stands.
pub fn space_in(line: &[u8]) -> Option<usize>
    ensures { result ≡ position is_space line.now }
{
    line.iter().position(|b| is_space(*b))
}
