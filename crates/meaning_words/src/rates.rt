//! The rates of a detailed timing.
ghost use Rattle.std.specs.Prelude.{◌≡◌, ◌+◌, ◌*◌, ◌<◌, ◌^◌};
ghost use Rattle.meaning_words.specs.Rates.{IsNearest, nearest, number_at, of_line, line_pixels, half_lines, picture_lines, field_rate, line_rate};

/// The half lines of a second's fields to a thousandth of the clock's unit: 10,000 pixels, twice, a thousand times.
const FIELD_CLOCK: u64 = 20_000_000;
/// The clock's unit: 10,000 pixels a second.
const LINE_CLOCK: u64 = 10_000;

/// The whole number that is nearest to a quotient; of two the greater.
pub fn nearest(number: u64, by: u64) -> u64
    requires some { 0 < by }
    requires small { number < 2 ^ 60 }
    requires small_by { by < 2 ^ 60 }
    ensures value { result ≡ nearest number by }
    ensures nearest { IsNearest number by result }
{
    (2 * number + by) / (2 * by)
}

/// What the line of a timing says, by the names of its numbers.
#[derive(Clone, Copy)]
pub(crate) struct TimingNumbers {
    /// The pixel clock in units of 10 kHz.
    pub(crate) clock: u16,
    pub(crate) horizontal_active: u16,
    pub(crate) horizontal_blanking: u16,
    pub(crate) vertical_active: u16,
    pub(crate) vertical_blanking: u16,
    /// The image's width and height in millimetres.
    pub(crate) width: u16,
    pub(crate) height: u16,
    /// Pixels on the left and on the right, lines above and below.
    pub(crate) horizontal_border: u16,
    pub(crate) vertical_border: u16,
    pub(crate) flags: u8,
}

/// A number of a timing's line, of at most 16 bits; 0 where the line has none there.
fn number_at(numbers: &[u32], place: usize) -> u16
    ensures { result ≡ number_at numbers.now place }
{
    match numbers.get(place) {
        Some(number) => (*number).min(65_535) as u16,
        None => 0,
    }
}

impl TimingNumbers {
    /// Of the numbers of its line: the clock; active and blanking, horizontally and vertically; sync offset and width, in the
    /// same way; width and height; borders.
    pub(crate) fn of_line(numbers: &[u32], flags: u8) -> Self
        ensures { result ≡ of_line numbers.now flags }
    {
        TimingNumbers {
            clock: number_at(numbers, 0),
            horizontal_active: number_at(numbers, 1),
            horizontal_blanking: number_at(numbers, 2),
            vertical_active: number_at(numbers, 3),
            vertical_blanking: number_at(numbers, 4),
            width: number_at(numbers, 9),
            height: number_at(numbers, 10),
            horizontal_border: number_at(numbers, 11),
            vertical_border: number_at(numbers, 12),
            flags,
        }
    }
}

/// The pixels of a line.
pub(crate) fn line_pixels(timing: &TimingNumbers) -> u64
    ensures value { result ≡ line_pixels timing.now }
    ensures small { result < 131072 }
{
    u64::from(timing.horizontal_active) + u64::from(timing.horizontal_blanking)
}

/// The half lines of a field.
pub(crate) fn half_lines(timing: &TimingNumbers) -> u64
    ensures value { result ≡ half_lines timing.now }
    ensures small { result < 262144 }
{
    2 * (u64::from(timing.vertical_active) + u64::from(timing.vertical_blanking))
        + u64::from(timing.flags / 128)
}

/// The lines of a picture.
pub(crate) fn picture_lines(timing: &TimingNumbers) -> u64
    ensures value { result ≡ picture_lines timing.now }
    ensures small { result < 131072 }
{
    u64::from(timing.vertical_active) * (1 + u64::from(timing.flags / 128))
}

/// How many fields it shows, in thousandths of a Hz.
pub(crate) fn field_rate(timing: &TimingNumbers) -> u64
    requires { 0 < line_pixels timing.now * half_lines timing.now }
    ensures { result ≡ field_rate timing.now }
{
    nearest(
        u64::from(timing.clock) * FIELD_CLOCK,
        line_pixels(timing) * half_lines(timing),
    )
}

/// How many lines it shows, in Hz.
pub(crate) fn line_rate(timing: &TimingNumbers) -> u64
    requires { 0 < line_pixels timing.now }
    ensures { result ≡ line_rate timing.now }
{
    nearest(u64::from(timing.clock) * LINE_CLOCK, line_pixels(timing))
}
