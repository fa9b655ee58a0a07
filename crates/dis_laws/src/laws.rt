//! The law.
ghost use Rattle.dis_laws.specs.Kept.{MeaningsKeepTheTexts};

/// Without the lines that begin with a space, what is written of frames with their meanings is what is written without.
pub fn meanings_keep_the_texts()
    ensures { MeaningsKeepTheTexts }
{}
