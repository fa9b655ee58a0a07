//! The records of what a display does not offer.
ghost use Rattle.std.specs.Prelude.{◌≡◌, ◌≤◌, codes, length};
ghost use Rattle.std.specs.List.{list_all};
ghost use Rattle.infoframe_claims.specs.Offers.{is_offered};
ghost use Rattle.infoframe_check.specs.Records.{claim_text, numbered_cells, plain_cells, unoffered_by, unoffered_text};
ghost use Rattle.record_core.specs.Records.{record_text};
ghost use Rattle.text_core.specs.Adds.{Adds};

use edid_base::Base;
use edid_cta::Ext;
use infoframe_claims::{Claim, claim_number, claim_word, is_offered};
use record_core::{Form, Value, add_record, cells};
use text_core::{Counted, Piece, Sink};

fn add_numbered<'a, S: Sink>(out: &mut Counted<'_, S>, form: Form, word: &'a str, number: u64)
    ensures { Adds out.old out.new (record_text form (codes "unoffered") (numbered_cells word.now number)) }
{
    let cells = cells![
        both("not offered: ", "what", Value::One(Piece::Text(word))),
        both(" ", "number", Value::One(Piece::Decimal(number))),
    ];
    add_record(out, form, "unoffered", &cells);
}

fn add_plain<'a, S: Sink>(out: &mut Counted<'_, S>, form: Form, word: &'a str)
    ensures { Adds out.old out.new (record_text form (codes "unoffered") (plain_cells word.now)) }
{
    let cells = cells![
        both("not offered: ", "what", Value::One(Piece::Text(word))),
        hidden("number", Value::Nothing),
    ];
    add_record(out, form, "unoffered", &cells);
}

fn add_unoffered<S: Sink>(out: &mut Counted<'_, S>, form: Form, word: &str, number: Option<u64>)
    ensures { Adds out.old out.new (unoffered_by form word.now number) }
{
    match number {
        None => add_plain(out, form, word),
        Some(number) => add_numbered(out, form, word, number),
    }
}

#[tactic(auto, using(text_core::proofs::Adding::nothing))]
fn add_claim<S: Sink>(
    out: &mut Counted<'_, S>,
    form: Form,
    base: &Base,
    extensions: &[Ext],
    claim: Claim,
)
    requires few { length extensions.now ≤ 3 }
    ensures { Adds out.old out.new (claim_text form base.now extensions.now claim) }
{
    if !is_offered(claim, base, extensions) {
        add_unoffered(out, form, claim_word(claim), claim_number(claim));
    }
}

/// Adds a record for each claim that a display does not meet.
#[tactic(auto, using(text_core::proofs::Adding::nothing, text_core::proofs::Adding::then))]
pub(crate) fn add_claims<S: Sink>(
    out: &mut Counted<'_, S>,
    form: Form,
    base: &Base,
    extensions: &[Ext],
    claims: &[Claim],
)
    requires few { length extensions.now ≤ 3 }
    ensures { Adds out.old out.new (unoffered_text form base.now extensions.now claims.now) }
{
    if let [claim, others @ ..] = claims {
        add_claim(out, form, base, extensions, *claim);
        add_claims(out, form, base, extensions, others);
    }
}

/// Whether a display meets all of some claims.
pub(crate) fn are_offered(base: &Base, extensions: &[Ext], claims: &[Claim]) -> bool
    requires few { length extensions.now ≤ 3 }
    ensures { result ≡ list_all (λ claim. is_offered claim base.now extensions.now) claims.now }
{
    match claims {
        [] => true,
        [claim, others @ ..] => {
            is_offered(*claim, base, extensions) && are_offered(base, extensions, others)
        }
    }
}
