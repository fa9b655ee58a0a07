//! What a command line may ask for.
#![tactic(auto)]

mod choice;
mod words;

pub use choice::{
    Asked, CapturePair, CaptureReport, CaptureSummary, CommandChoice, EdidReading, EdidShape,
    EldShape, FollowChoice, FollowReport, Listing, MonChoice, Objects, Recipient, Sound, Source,
    SummaryChoice, TestView, View,
};
pub use words::{form_by, joined, micros_of};
