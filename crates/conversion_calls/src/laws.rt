//! Laws of what is passed on.
ghost use Rattle.std.specs.Prelude.{ℕ, List};
ghost use Rattle.edid_tree.specs.Node.{Node};
ghost use Rattle.conversion_calls.specs.Laws.{PassesAsTheTree, TelevisionsPassAsTheTree};

/// What `Place::Port` gives of an EDID with the address of a device of a tree is what the tree passes on in that port: its
/// address needs no tree.
pub fn ports_are_those_of_the_tree()
    ensures { (tree : List Node) (device port : ℕ) (path : List ℕ) → PassesAsTheTree tree device port path }
{}

/// Of a television's EDID with the address 0.0.0.0 it is what the television passes on in that port.
pub fn televisions_pass_on_as_the_tree()
    ensures { (tree : List Node) (device port : ℕ) → TelevisionsPassAsTheTree tree device port }
{}
