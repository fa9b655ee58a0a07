//! Laws of readings and receivers.
ghost use Rattle.line_reading.specs.Causality.{ReadingsAreCausal};
ghost use Rattle.line_reading.specs.Ended.{EndOneByOne, EndedAreFirst};
ghost use Rattle.line_reading.specs.Heard.{CalmKeepsStanding, CalmKeepsStandingBy, CalmReportsNothing, CalmReportsNothingBy, HighLinesKeepNothing, KeptIsHeardBefore, KeptIsHeardBeforeBy, KeptIsHeardBy, NoneRunsWithoutFall, OneRunsFromFall, ReportedIsHeard, ReportedIsHeardBy, WakesAreNotPast};
ghost use Rattle.line_reading.specs.Kept.{StandingsAreKept};
ghost use Rattle.line_reading.specs.Known.{FallenSlotsAreKnown, LastEndingsArePlain, LateSlotsAreUnknown, QuietSlotsAreSampled, RisenStartsGoByFalls, SampledSlotsAreKnown, SlotsAddTheirBits, SlotsAreKnownInside, StartHighTellsNothing, StartLowTellsNothing};
ghost use Rattle.line_reading.specs.Over.{EndsAfterFall, EndsOnceOver, OverAfterFall, OverByEnding, OverLately, SlotsOverAfterFall, SlotsOverByEnding};
ghost use Rattle.line_reading.specs.Places.{EndingSlotsAreKnown, EndingSlotsAreLast, ListenersStand, ListenersStep, PlacesKnowBits, PlacesShowReadings, SlotsOverAreSampled};
ghost use Rattle.line_reading.specs.Readings.{HasList, ListsAreCausal, OneList, PartsAreRead, ReadingsAreOwn};
ghost use Rattle.line_reading.specs.Reports.{EndingsAreReported, RunningIsKept};
ghost use Rattle.line_reading.specs.Searches.{AlikeFindAlike, FirstIsFound, FoundIsFirst, MissedPassNone, NoneIsFound};
ghost use Rattle.line_reading.specs.Sending.{SendersGoByReports, SendersPullByRound, SilenceChangesNoSender};
ghost use Rattle.line_reading.specs.Wider.{BitsAreLevels, MarginsAreAlike, ReadsByStandard, WholeAreAlike};
ghost use Rattle.line_reading.specs.Windows.{AreWindows, standard};

/// What is read before an instant depends on the line before that instant alone.
pub fn readings_are_causal()
    ensures { ReadingsAreCausal }
{}

/// A reading depends on the line from its fall to its last microsecond alone.
pub fn readings_are_own()
    ensures { ReadingsAreOwn }
{}

/// A line has a list of readings, each of which begins at the first fall after the one before.
pub fn has_list()
    ensures { HasList }
{}

/// It has one.
pub fn one_list()
    ensures { OneList }
{}

/// What is known of a line's readings by an instant depends on the line through that instant alone.
pub fn lists_are_causal()
    ensures { ListsAreCausal }
{}

/// What a receiver keeps of a line shows the standing that the line's readings have.
pub fn standings_are_kept()
    ensures { StandingsAreKept }
{}

/// From one edge to the next at most one reading ends; after the last edge one at most is left.
pub fn readings_end_one_by_one()
    ensures { EndOneByOne }
{}

/// A receiver's readings are its line's: each instant ends the reading that it reports, and where the line is cut the
/// one that is still kept is open.
pub fn readings_are_reported()
    ensures endings { EndingsAreReported }
    ensures running { RunningIsKept }
{}

/// A line made of parts in order is read part by part: its readings are theirs, in order, each once.
pub fn parts_are_read()
    ensures { PartsAreRead }
{}

/// A reading with all its blocks is the same by wider windows: a line that the standard's windows read so is read alike
/// with every margin.
pub fn wider_windows_read_alike()
    ensures whole { WholeAreAlike }
    ensures margins { MarginsAreAlike }
    ensures standard { ReadsByStandard }
{}

/// By whatever windows, the bits of a reading are the line's levels at the samples.
pub fn bits_are_levels()
    ensures { BitsAreLevels }
{}

/// A search of the instants from one on finds the first that passes its test, and nothing exactly where none passes; tests that
/// agree on them find the same.
pub fn searches_find_the_first()
    ensures found { FoundIsFirst }
    ensures missed { MissedPassNone }
    ensures first { FirstIsFound }
    ensures none { NoneIsFound }
    ensures alike { AlikeFindAlike }
{}

/// The standard's windows are windows by which lines can be read.
pub fn the_standard_has_windows()
    ensures { AreWindows standard }
{}

/// Nothing is known of a reading in its start bit, while the line may still rise in time, and then while it may still fall in
/// time. After a rise in time the start bit goes by the next fall.
pub fn starts_tell_nothing()
    ensures low { StartLowTellsNothing }
    ensures high { StartHighTellsNothing }
    ensures risen { RisenStartsGoByFalls }
{}

/// A slot is known once it fell, and its bit once it was sampled; nothing is known of slots that fall later. So in a slot the
/// ones before it are known, and its own. A slot without a fall up to its sample has the bit of the line's level there, and
/// adds it to the bits.
pub fn slots_are_known_one_by_one()
    ensures late { LateSlotsAreUnknown }
    ensures fallen { FallenSlotsAreKnown }
    ensures sampled { SampledSlotsAreKnown }
    ensures inside { SlotsAreKnownInside }
    ensures quiet { QuietSlotsAreSampled }
    ensures bits { SlotsAddTheirBits }
{}

/// A reading is over at its fall or later, soon after the line was low, and at its ending or a microsecond before it; it ends
/// after its fall. What is left of it from a slot on is over at that slot's fall or later, and by its ending. The ending of a
/// last slot is reported at its own instant.
pub fn readings_are_over_in_time()
    ensures after_fall { OverAfterFall }
    ensures lately { OverLately }
    ensures by_ending { OverByEnding }
    ensures ends { EndsAfterFall }
    ensures ends_soon { EndsOnceOver }
    ensures slots_after_fall { SlotsOverAfterFall }
    ensures slots_by_ending { SlotsOverByEnding }
    ensures plain { LastEndingsArePlain }
{}

/// The readings that have ended by an instant are the first of those of the line, however much later it is cut.
pub fn ended_readings_are_first()
    ensures { EndedAreFirst }
{}

/// Slots that fell one after another were sampled. A slot that ends its reading is the last one of it, and once it fell it is
/// known with those before it.
pub fn slots_are_reached_in_order()
    ensures sampled { SlotsOverAreSampled }
    ensures last { EndingSlotsAreLast }
    ensures known { EndingSlotsAreKnown }
{}

/// One who hears a line microsecond by microsecond stands at a place in its readings, and each microsecond leads to the next
/// place. The place says which reading runs, and which bits of it are known.
pub fn listeners_stand_in_readings()
    ensures stands { ListenersStand }
    ensures step { ListenersStep }
    ensures running { PlacesShowReadings }
    ensures bits { PlacesKnowBits }
{}

/// A reading runs from its first fall until it ends; where the line does not fall, none runs.
pub fn readings_run_from_their_falls()
    ensures none { NoneRunsWithoutFall }
    ensures one { OneRunsFromFall }
{}

/// What is kept of a line is what was heard of it microsecond by microsecond, and so is what each microsecond reports: by the
/// standard's windows and by all others.
pub fn what_is_heard_is_kept()
    ensures kept { KeptIsHeardBefore }
    ensures reported { ReportedIsHeard }
    ensures kept_by { KeptIsHeardBeforeBy }
    ensures kept_on_by { KeptIsHeardBy }
    ensures reported_by { ReportedIsHeardBy }
{}

/// Up to the next edge or wake a line tells nothing, and what is kept of it stays; a wake is not past. Of a line that is never
/// low nothing is kept.
pub fn calm_lines_tell_nothing()
    ensures nothing { CalmReportsNothing }
    ensures kept { CalmKeepsStanding }
    ensures nothing_by { CalmReportsNothingBy }
    ensures kept_by { CalmKeepsStandingBy }
    ensures wakes { WakesAreNotPast }
    ensures high { HighLinesKeepNothing }
{}

/// How a sender goes on is said by what each microsecond reports of its reading, and where nothing is reported it stays as it
/// is. It pulls as the rule of a round has it.
pub fn senders_go_by_reports()
    ensures reports { SendersGoByReports }
    ensures silence { SilenceChangesNoSender }
    ensures pulls { SendersPullByRound }
{}
