//! What holds of every opcode.
ghost use Rattle.std.specs.Prelude.{ℕ};
ghost use Rattle.message_table.specs.Laws.{KeepsOperands};

/// A frame of an opcode with a name and of as many operands as its row has says a message, and is that message's
/// frame.
pub fn messages_keep_operands()
    ensures { (code : ℕ) → KeepsOperands code }
{}
