//! From frames to messages.
ghost use Rattle.std.specs.Prelude.{◌≡◌, ◌≤◌, length};
ghost use Rattle.message_table.specs.Table.{decoding, decoded_of, row_of};

use crate::deck_words::{DeckControlMode, DeckInfo, PlayMode, StatusRequest};
use crate::encoding::is_raw;
use crate::message::{Decoded, Message, Triple};
use crate::rows::rows;
use crate::screen_words::{Display, MenuRequestType, MenuState};
use crate::user_control::UserControl;
use crate::words::{AudioStatus, DeviceType, Power, Reason, SystemAudio, Version};
use arrayvec::ArrayVec;
use line_frames::Frame;
use text_core::Phys;

// Reads one operand off the front.
macro_rules! take {
    ($op:literal, $from:expr, $field:ident : Byte, $rest:ident, $then:expr) => {
        match $from {
            [byte, $rest @ ..] => {
                let $field = *byte;
                $then
            }
            _ => Decoded::Short($op),
        }
    };
    ($op:literal, $from:expr, $field:ident : Address, $rest:ident, $then:expr) => {
        match $from {
            [high, low, $rest @ ..] => {
                let $field = Phys { high: *high, low: *low };
                $then
            }
            _ => Decoded::Short($op),
        }
    };
    ($op:literal, $from:expr, $field:ident : Language, $rest:ident, $then:expr) => {
        take!($op, $from, $field: Vendor, $rest, $then)
    };
    ($op:literal, $from:expr, $field:ident : Vendor, $rest:ident, $then:expr) => {
        match $from {
            [first, second, third, $rest @ ..] => {
                let $field = Triple { first: *first, second: *second, third: *third };
                $then
            }
            _ => Decoded::Short($op),
        }
    };
    ($op:literal, $from:expr, $field:ident : Volume, $rest:ident, $then:expr) => {
        take!($op, $from, $field: AudioStatus, $rest, $then)
    };
    ($op:literal, $from:expr, $field:ident : $set:ident, $rest:ident, $then:expr) => {
        match $from {
            [byte, $rest @ ..] => {
                let $field = $set::from_byte(*byte);
                $then
            }
            _ => Decoded::Short($op),
        }
    };
}

macro_rules! read_row {
    ($op:literal, $operands:ident, $message:ident {}) => {
        Decoded::Known(Message::$message)
    };
    ($op:literal, $operands:ident, $message:ident { $field:ident : Text }) => {
        match $operands {
            [_, ..] => Decoded::Known(Message::$message { $field: list($operands) }),
            _ => Decoded::Short($op),
        }
    };
    ($op:literal, $operands:ident, $message:ident { $field:ident : optional Address }) => {
        match $operands {
            [] => Decoded::Known(Message::$message { $field: None }),
            [high, low, ..] => Decoded::Known(Message::$message {
                $field: Some(Phys { high: *high, low: *low }),
            }),
            _ => Decoded::Short($op),
        }
    };
    ($op:literal, $operands:ident, $message:ident { $field:ident : Byte }) => {
        match $operands {
            [byte, ..] => Decoded::Known(Message::$message { $field: *byte }),
            _ => Decoded::Short($op),
        }
    };
    ($op:literal, $operands:ident, $message:ident { $field:ident : Address }) => {
        match $operands {
            [high, low, ..] => Decoded::Known(Message::$message {
                $field: Phys { high: *high, low: *low },
            }),
            _ => Decoded::Short($op),
        }
    };
    ($op:literal, $operands:ident, $message:ident { $field:ident : Language }) => {
        read_row!($op, $operands, $message { $field: Vendor })
    };
    ($op:literal, $operands:ident, $message:ident { $field:ident : Vendor }) => {
        match $operands {
            [first, second, third, ..] => Decoded::Known(Message::$message {
                $field: Triple { first: *first, second: *second, third: *third },
            }),
            _ => Decoded::Short($op),
        }
    };
    ($op:literal, $operands:ident, $message:ident { $field:ident : Volume }) => {
        read_row!($op, $operands, $message { $field: AudioStatus })
    };
    ($op:literal, $operands:ident, $message:ident { $field:ident : $set:ident }) => {
        match $operands {
            [byte, ..] => Decoded::Known(Message::$message { $field: $set::from_byte(*byte) }),
            _ => Decoded::Short($op),
        }
    };
    ($op:literal, $operands:ident, $message:ident { $field:ident : $kind:ident, $text:ident : optional Text }) => {
        take!($op, $operands, $field: $kind, rest, Decoded::Known(Message::$message { $field: $field, $text: list(rest) }))
    };
    ($op:literal, $operands:ident, $message:ident { $field:ident : $kind:ident, $next:ident : $after:ident }) => {
        take!($op, $operands, $field: $kind, rest, take!($op, rest, $next: $after, _rest, Decoded::Known(Message::$message { $field: $field, $next: $next })))
    };
}

macro_rules! decode_match {
    ($code:expr, $operands:ident, { $($op:literal $name:literal $to:ident $message:ident $fields:tt;)* } { $($raw:literal $raw_name:literal;)* }) => {
        match $code {
            $($op => read_row!($op, $operands, $message $fields),)*
            _ => {
                if is_raw($code) {
                    Decoded::Known(Message::Raw { opcode: $code, operands: list($operands) })
                } else {
                    Decoded::Unknown($code)
                }
            }
        }
    };
}

/// A copy of at most sixteen bytes.
fn list(bytes: &[u8]) -> ArrayVec<u8, 16>
    requires { length bytes.now ≤ 16 }
    ensures { result.items ≡ bytes.now }
{
    let mut items = ArrayVec::new();
    let _ = items.try_extend_from_slice(bytes);
    items
}

fn decode_operands(code: u8, operands: &[u8]) -> Decoded
    requires { length operands.now ≤ 16 }
    ensures { result ≡ decoding code operands.now (row_of code) }
{
    rows!(decode_match, code, operands)
}

/// What a frame says.
pub fn decode(frame: &Frame) -> Decoded
    ensures { result ≡ decoded_of frame.now }
{
    match frame.bytes() {
        [_, code, operands @ ..] => decode_operands(*code, operands),
        _ => Decoded::Poll,
    }
}
