//! A pattern with a name.
ghost use Rattle.std.specs.Prelude.{◌+◌, ◌<◌, length};

/// A pattern with a name: what stands before its `@`, the name, and what stands after it.
#[derive(Clone, Copy)]
pub struct NamedPattern<'a> {
    pub front: &'a [u8],
    pub name: &'a [u8],
    pub rest: &'a [u8],
    ghost room: { length front.now + length rest.now < 160 },
}
