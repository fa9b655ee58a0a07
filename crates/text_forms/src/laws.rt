//! What holds of lines that a table describes.
ghost use Rattle.text_forms.specs.Laws.{ReadsBack};

/// Of a table whose rows are apart, the words of a row's values are read as that row with those values.
pub fn values_read_back<V>()
    ensures { ReadsBack V }
{}
