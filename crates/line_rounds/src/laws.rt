//! Laws of rounds: one line, arbitration (CEC 9), the acknowledge bit (CEC 6.1), and how long a round lasts.
ghost use Rattle.line_rounds.specs.Alone.{RoundsAreLone};
ghost use Rattle.line_rounds.specs.Begins.{BegunBy, LowAtBegin, RoundsAreContended, SenderLow};
ghost use Rattle.line_rounds.specs.Bounds.{RoundsAreShort};
ghost use Rattle.line_rounds.specs.Contend.{AcknowledgedIsZero, AcknowledgersHold, AlikePulses, CompleteIsSurvivors, CompleteIsWinners, HasLine, LaterPulses, LosersInside, RoundBelow, SameLine, WinnersLast, WinnersWindow};
ghost use Rattle.line_rounds.specs.Falls.{EachFallBegins, FallsAreRead, FewFalls, RoundFits, WaveFits};
ghost use Rattle.line_rounds.specs.Follow.{BreaksNow, NoAcks};
ghost use Rattle.line_rounds.specs.Known.{DestinationMore, LeavesMore, StaysBy};
ghost use Rattle.line_rounds.specs.Lasting.{RoundsLast};
ghost use Rattle.line_rounds.specs.Lays.{AfterStart, BeforeSlots, BeforeStart, SlotAt, SlotOrNone, StartAt};
ghost use Rattle.line_rounds.specs.Least.{IsLeast, LeastOf};
ghost use Rattle.line_rounds.specs.Made.{RoundFallBy};
ghost use Rattle.line_rounds.specs.OneOutcome.{OneOutcome, RoundsHaveOutcomes};
ghost use Rattle.line_rounds.specs.Polls.{FreeIsRead, HoldersAreHeard};
ghost use Rattle.line_rounds.specs.Quiet.{HighBefore, HighSparse, NoFallAfter, PulseOnly};
ghost use Rattle.line_rounds.specs.Reached.{AcksNow, DoneBy, KnownHere, KnownUnsampled, ReachNext, ReachedStart};
ghost use Rattle.line_rounds.specs.Recorded.{NoLine, RecordFirst, RecordIsReady, RecordStep};
ghost use Rattle.line_rounds.specs.Rests.{RestPast, RestRises, WavesAreWide};
ghost use Rattle.line_rounds.specs.Round.{FatesReported, OneLine};
ghost use Rattle.line_rounds.specs.Slots.{BitsMore, NextFalls, ReadingSpans, ReportedAll, ReportedBits};
ghost use Rattle.line_rounds.specs.Winning.{CompleteIsRead};

// ---- the line

/// A round has one line, whichever way it is found.
pub fn one_line()
    ensures { OneLine }
{}

/// Where a sender that is not out pulls, a winner that is not out pulls.
pub fn losers_inside()
    ensures { LosersInside }
{}

/// Where pulses are sparse, the round's line is that on which the winners alone pull: losers pull only inside winners, and
/// a sender has no fall to make at an ending for want of a fall.
pub fn same_line()
    ensures { SameLine }
{}

/// Where the pulses are sparse and a winner is still sending, the read fall of a slot is not after its own and at most 350 before it.
pub fn winners_window()
    ensures { WinnersWindow }
{}

/// No winner is out before another sender is.
pub fn winners_last()
    ensures { WinnersLast }
{}

/// Each round has a line.
pub fn has_line()
    ensures { HasLine }
{}

/// A pulse changes nothing before it begins.
pub fn later_pulses()
    ensures { LaterPulses }
{}

/// Pulses that are alike before an instant have lines that are.
pub fn alike_pulses()
    ensures { AlikePulses }
{}

/// What everybody pulled below an instant is the round's line there, whatever pulses follow.
pub fn round_below()
    ensures { RoundBelow }
{}

/// Arbitration (CEC 9): a complete reading has, acknowledge slots left out, the bits of a winner.
pub fn complete_is_winners()
    ensures { CompleteIsWinners }
{}

/// Of any line: a complete reading has, acknowledge slots left out, the bits of each sender that is not out of it.
pub fn complete_is_survivors()
    ensures { CompleteIsSurvivors }
{}

/// Arbitration (CEC 9): what is read of a complete round as its frame is the frame of a winner.
pub fn complete_is_read()
    ensures { CompleteIsRead }
{}

/// Where an acknowledger pulls, the acknowledge bit is read 0 (CEC 6.1).
pub fn acknowledged_is_zero()
    ensures { AcknowledgedIsZero }
{}

/// Who acknowledges is decided at the slot's fall, and holds for the 1,500 of the pull.
pub fn acknowledgers_hold()
    ensures { AcknowledgersHold }
{}

/// Where a winner pulls, a round's line is low, and it is low only where somebody pulls. While no ending is known, a winner that
/// stays by all bits that are pulls it low; where somebody pulls at once, it is low at the begin.
pub fn rounds_are_contended()
    ensures contended { RoundsAreContended }
    ensures stays { SenderLow }
    ensures begins { LowAtBegin }
{}

/// Of frames there is one that no other comes before, bit by bit; it is least among them (CEC 9).
pub fn least_frames_are_there()
    ensures some { LeastOf }
    ensures least { IsLeast }
{}

/// Bits that are read later change neither the destination nor whether a sender stops at a slot that is read. A sender that is
/// not out of a reading which is not whole stays, by all bits that are known.
pub fn more_bits_change_nothing()
    ensures destination { DestinationMore }
    ensures leaves { LeavesMore }
    ensures stays { StaysBy }
{}

/// Nobody acknowledges 1,500 after the last slot's fall. After an ending the line is held as before, and for 3,600 more where
/// somebody answers a fall too early (CEC 7.4).
pub fn followers_let_go()
    ensures acknowledges { NoAcks }
    ensures breaks { BreaksNow }
{}

/// A sender pulls for the first 3,700 of its start bit, then for the first 600 of each slot with a 1 and the first 1,500 of each
/// with a 0 (CEC 5.2), and neither before its begin nor after its last slot.
pub fn senders_pull_slot_by_slot()
    ensures before { BeforeStart }
    ensures start { StartAt }
    ensures after { AfterStart }
    ensures early { BeforeSlots }
    ensures slot { SlotAt }
    ensures any { SlotOrNone }
{}

// ---- falls, and how long it lasts

/// A line that keeps the round's rule falls only where a sender's stretch or a pulse begins, where frames have at most 16
/// blocks (CEC 6). Whoever pulls, it falls at most 162 times, and a wave of it has at most 162 stretches.
pub fn few_falls()
    ensures begins { EachFallBegins }
    ensures few { FewFalls }
    ensures wave { WaveFits }
    ensures round { RoundFits }
{}

/// Of any line at most 162 falls lie from a reading's begin to its last microsecond, whoever pulls.
pub fn falls_are_read()
    ensures { FallsAreRead }
{}

/// A round in which a seat sends, or a pulse begins at its begin, ends after its begin, and its last low
/// stretch too.
pub fn rounds_last()
    ensures { RoundsLast }
{}

/// A round's line by itself is read once, from the round's begin, whatever pulls in order there are: it is high before and from
/// the rest on, and falls no more once the reading is over. That reading is the outcome's.
pub fn rounds_are_lone()
    ensures { RoundsAreLone }
{}

/// A round's reading ends at most 444,861 microseconds after its begin, and its last low stretch at most 448,461 after it, or with
/// a pull that began by then: with sparse pulses at most 458,461 after it. That stretch begins by the reading's last microsecond,
/// and at most 19 sparse pulses begin in all that time.
pub fn rounds_are_short()
    ensures { RoundsAreShort }
{}

/// A round's line falls at the begin, where a slot of a sender that is not out begins, or where a pulse does.
pub fn falls_are_begins()
    ensures { RoundFallBy }
{}

/// A round's line is high before its begin, and falls no more after its reading's last microsecond. 3,600 after the ending only
/// a pulse pulls, and 13,600 after it, where pulses are sparse, nobody does.
pub fn rounds_are_quiet()
    ensures before { HighBefore }
    ensures falls { NoFallAfter }
    ensures pulses { PulseOnly }
    ensures sparse { HighSparse }
{}

/// Stretches in order are a microsecond wide at least. The last of them that begins by an instant ends no sooner than those before
/// it, and after each instant until then at which the line is low.
pub fn rests_are_last()
    ensures wide { WavesAreWide }
    ensures rises { RestRises }
    ensures past { RestPast }
{}

/// A reading goes on past its begin, when nothing of it is known. Its slots fall more than 1,050 apart, each where the line falls
/// and by the reading's last microsecond, as their bits are sampled; the next one falls in the window of the one before.
pub fn slots_are_apart()
    ensures begins { BegunBy }
    ensures spans { ReadingSpans }
    ensures next { NextFalls }
{}

/// What is known of a reading's bits at an instant begins with what was known before it; once the reading is over all of its
/// slots and bits are known.
pub fn bits_come_in_order()
    ensures more { BitsMore }
    ensures slots { ReportedAll }
    ensures bits { ReportedBits }
{}

/// A reading comes from its start to the first slot and from each slot to the next. In a slot its bit is known once it is
/// sampled, and who acknowledges there pulls from the fall on for the acknowledge bit (CEC 6.1); in the slots before it nobody
/// acknowledges any more.
pub fn readings_go_slot_by_slot()
    ensures starts { ReachedStart }
    ensures next { ReachNext }
    ensures unsampled { KnownUnsampled }
    ensures known { KnownHere }
    ensures over { DoneBy }
    ensures acknowledges { AcksNow }
{}

// ---- what the outcome says

/// A round has one outcome: the same seats, begin and pulses give one reading, the same survivors and losers,
/// one rest and one wave.
pub fn one_outcome()
    ensures { OneOutcome }
{}

/// Each round has an outcome, whoever sends and whatever pulls in order come.
pub fn rounds_have_outcomes()
    ensures { RoundsHaveOutcomes }
{}

/// What an outcome says of each sender and of its close is what becomes of them in the round.
pub fn fates_reported()
    ensures { FatesReported }
{}

/// A poll of an address below 15 that nobody acknowledged was read whole, just as it was sent.
pub fn free_is_read()
    ensures { FreeIsRead }
{}

/// Where a poll was not acknowledged, whoever is plugged in and holds its address was itself still sending to that
/// address, whatever pulses there were.
pub fn holders_are_heard()
    ensures { HoldersAreHeard }
{}

/// The wave of a line is recorded microsecond by microsecond: empty while nothing was low, with a stretch more where the line
/// rises. That stretch comes after the others, which are not low from their ends on.
pub fn waves_are_recorded()
    ensures first { RecordFirst }
    ensures step { RecordStep }
    ensures ready { RecordIsReady }
    ensures ends { NoLine }
{}
