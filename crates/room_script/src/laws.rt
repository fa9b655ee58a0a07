//! Laws of the texts of scripts.
ghost use Rattle.std.specs.Prelude.{◌≡◌, true};
ghost use Rattle.std.specs.List.{list_all};
ghost use Rattle.room_lines.specs.Script.{script_rows};
ghost use Rattle.room_script.specs.Lines.{AnswersAreGiven, KeysHaveTheirWords, LinesAdd, LinesAreOfRows, LinesAreOfScripts, LinesBeginSo, LinesEnd, LinesFollow, LinesKeepFew, LinesKeepSound, NoneAreSound, SoundAreTimely, names_key};
ghost use Rattle.room_script.specs.Script.{OneScript, ScriptsAreSound};

/// Every text of a script gives events in the order of their times, of devices that are there and of frames that are
/// not empty, and pulses and pulls in order.
pub fn scripts_are_sound()
    ensures { ScriptsAreSound }
{}

/// A text that is read as a script is read in no other way.
pub fn one_script()
    ensures { OneScript }
{}

/// The key that a line says is one of the word that stands in the line's form.
pub fn keys_begin_with_their_words()
    ensures word { KeysHaveTheirWords }
    ensures form { list_all names_key script_rows ≡ true }
{}

/// A line that is read names a row of the table, which all of its words fit. It begins with the row's word, and then with its time.
pub fn lines_are_of_rows()
    ensures row { LinesAreOfRows }
    ensures begin { LinesBeginSo }
{}

/// What the lines of a script say so far is sound: before the first line it is, each line that is taken keeps it so, and what it
/// pulls low passes the test of pulls, where it is few.
pub fn lines_keep_scripts_sound()
    ensures start { NoneAreSound }
    ensures line { LinesKeepSound }
    ensures timely { SoundAreTimely }
{}

/// A line adds at most one event and one pulse or pull, and that where there is room, so that what is pulled low stays few. A
/// line that is taken while some pulses wait is one of a script too, where the pulses and pulls are few in all.
pub fn lines_add_little()
    ensures adds { LinesAdd }
    ensures few { LinesKeepFew }
    ensures again { LinesAreOfScripts }
{}

/// Lines are read one after another: a line that is taken and those after it, and after the last a script, where an end stands.
/// Where a text says this, its answer is the text's, and a script that is answered is sound.
pub fn lines_are_read_in_order()
    ensures first { LinesFollow }
    ensures last { LinesEnd }
    ensures given { AnswersAreGiven }
{}
