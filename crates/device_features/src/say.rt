//! What is said in answer to a frame or a key.
ghost use Rattle.std.specs.Prelude.{◌≡◌, ◌≤◌, [], ◌∷◌, length};
ghost use Rattle.arrayvec.specs.ArrayVec.{array_vec_len};
ghost use Rattle.message_table.specs.Table.{spelling};
ghost use Rattle.device_features.specs.Effect.{at_most_one};
ghost use Rattle.device_features.specs.declared.say.Say.TheVariants.{Reply, Cast, Report, Refuse};

use arrayvec::ArrayVec;
use line_frames::Addr;
use message_table::{Message, Reason, spell};
use std::marker::Model;

/// The data blocks of a frame: an opcode and its operands, at most 15 bytes.
#[derive(Drop)]
pub struct DataBlocks {
    bytes: ArrayVec<u8, 24>,
}

impl Model for DataBlocks {
    ghost use Rattle.std.specs.Prelude.{ℕ, List, ◌≤◌, length};

    ghost Value = { List ℕ };

    ghost view = { λ b. b.bytes.items };

    ghost invariant = { λ b. length b.bytes.items ≤ 15 };
}

impl DataBlocks {
    /// The data blocks of a message that fits a frame.
    pub fn new(message: &Message) -> Self
        requires { length (spelling message.now) ≤ 15 }
        ensures { result ≡ spelling message.now }
    {
        DataBlocks {
            bytes: spell(message),
        }
    }

    /// The opcode and its operands.
    pub fn bytes(&self) -> &[u8]
        ensures bytes { result.now ≡ self.now }
        ensures most { length result.now ≤ 15 }
    {
        self.bytes.as_slice()
    }
}

/// What is said, and to whom.
#[derive(Drop)]
pub enum Say {
    /// To the initiator of the frame that is followed.
    Reply(DataBlocks),
    /// To all.
    Cast(DataBlocks),
    /// To the holder of an address.
    Report(Addr, DataBlocks),
    /// Feature Abort of the opcode that is followed, to its initiator.
    Refuse(Reason),
}

impl Default for Say {
    fn default() -> Self {
        Say::Refuse(Reason::Unrecognized)
    }
}

/// All that is said, in order.
pub type Says = ArrayVec<Say, 3>;

/// Nothing.
pub(crate) fn silence() -> Says
    ensures { result.items ≡ [] }
{
    ArrayVec::new()
}

fn one(said: Say) -> Says
    ensures { result.items ≡ said ∷ [] }
{
    let mut says = ArrayVec::new();
    says.push(said);
    says
}

/// One thing, or nothing.
pub(crate) fn at_most_one(said: Option<Say>) -> Says
    ensures { result.items ≡ at_most_one said }
{
    match said {
        Some(said) => one(said),
        None => silence(),
    }
}

/// Two things.
pub(crate) fn both(first: Say, second: Say) -> Says
    ensures items { result.items ≡ first ∷ second ∷ [] }
    ensures len { array_vec_len result ≡ 2 }
{
    let mut says = ArrayVec::new();
    says.push(first);
    says.push(second);
    says
}

/// A message to the initiator.
pub(crate) fn reply(message: &Message) -> Says
    requires { length (spelling message.now) ≤ 15 }
    ensures { result.items ≡ Reply (spelling message.now) ∷ [] }
{
    one(Say::Reply(DataBlocks::new(message)))
}

/// A message to all.
pub(crate) fn cast(message: &Message) -> Says
    requires { length (spelling message.now) ≤ 15 }
    ensures { result.items ≡ Cast (spelling message.now) ∷ [] }
{
    one(Say::Cast(DataBlocks::new(message)))
}

/// A message to the holder of an address.
pub(crate) fn report(to: Addr, message: &Message) -> Says
    requires { length (spelling message.now) ≤ 15 }
    ensures { result.items ≡ Report to (spelling message.now) ∷ [] }
{
    one(Say::Report(to, DataBlocks::new(message)))
}

/// A refusal.
pub fn refuse(reason: Reason) -> Says
    ensures { result.items ≡ Refuse reason ∷ [] }
{
    one(Say::Refuse(reason))
}
