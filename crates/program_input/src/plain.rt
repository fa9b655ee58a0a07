//! Texts of captures as other systems write them, which are read with the lines of this one.
ghost use Rattle.std.specs.Prelude.{◌≡◌};
ghost use Rattle.program_input.specs.Plain.{plain_held, plain_known, takes_plain, takes_plain_objects};

use crate::mark::WithoutMark;
use crate::opens::{OpenFault, Opens};
use crate::returns::WithoutReturns;
use cli_choice::{CapturePair, CommandChoice, MonChoice, Objects, SummaryChoice};
use std::io::Read;

/// A reader's text, as it stands, or plain: without the byte order mark at its front and the carriage returns at the ends of its lines.
pub fn plain_reader<R: Read>(below: R, is_plain: bool) -> WithoutReturns<WithoutMark<R>>
    ensures { ⟦<WithoutReturns<WithoutMark<R>> as Read>⟧.remaining result ≡ plain_known is_plain (R.remaining below) }
{
    WithoutReturns::new(WithoutMark::new(below, is_plain), is_plain)
}

/// Files whose texts are read as they stand, or plain.
#[derive(Clone, Copy)]
pub struct PlainFiles<'a, F> {
    pub files: &'a F,
    pub is_plain: bool,
}

impl<F: Opens> Opens for PlainFiles<'_, F> {
    type Opened = WithoutReturns<WithoutMark<F::Opened>>;

    ghost held = { λ plain. plain_held plain.is_plain (F.held plain.files.now) };

    fn open(&self, name: &str) -> Result<Self::Opened, OpenFault> {
        match self.files.open(name) {
            Ok(file) => Ok(plain_reader(file, self.is_plain)),
            Err(fault) => Err(fault),
        }
    }

    fn is_typed(&self) -> bool {
        self.files.is_typed()
    }
}

fn takes_plain_objects(objects: Objects, is_file: bool) -> bool
    ensures { result ≡ takes_plain_objects objects is_file }
{
    match objects {
        Objects::CaptureTest { form, .. } => is_file || form.is_some(),
        Objects::Trace { .. } | Objects::Room { .. } | Objects::Test { .. } => false,
    }
}

/// Whether the input of a choice is read plain: of a capture in a file, of one whose form is given, and of one that is followed.
pub fn takes_plain(choice: CommandChoice, is_file: bool) -> bool
    ensures { result ≡ takes_plain choice is_file }
{
    match choice {
        CommandChoice::Mon(MonChoice { form, .. })
        | CommandChoice::Summary(SummaryChoice { form, .. })
        | CommandChoice::CaptureDiff(CapturePair { form, .. })
        | CommandChoice::CapturedLine { form, .. }
        | CommandChoice::CheckCapture { form, .. } => is_file || form.is_some(),
        CommandChoice::Json(objects) => takes_plain_objects(objects, is_file),
        CommandChoice::Follow(_) => true,
        CommandChoice::Run { .. }
        | CommandChoice::Check(_)
        | CommandChoice::Step { .. }
        | CommandChoice::Live { .. }
        | CommandChoice::Asm
        | CommandChoice::Dis { .. }
        | CommandChoice::Lay { .. }
        | CommandChoice::EdidDiff { .. }
        | CommandChoice::InfoFrame { .. }
        | CommandChoice::Eld { .. }
        | CommandChoice::Edid { .. } => false,
    }
}
