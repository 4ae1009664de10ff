//! The contents of names: their 43 bytes.

ghost use Rattle.std.specs.Option.{option_cmp};
ghost use Rattle.std.specs.Prelude.{length, ◌<◌, ◌^◌, ◌≡◌};
ghost use Rattle.county_chart.specs.BodyOrder.{name_body_cmp};

use crate::content_classes::Contents;
use county_chart::Chart;
use std::cmp::Ordering;
use tl_layout::Body5;

/// The 43 bytes of a name, field by field: FILE, FEDIRP, FENAME, FETYPE, FEDIRS.
type NameBytes = ([u8; 5], ([u8; 2], ([u8; 30], ([u8; 4], [u8; 2]))));

/// Returns the fields of a name in the order of comparison.
fn bytes_of(body: &Body5) -> NameBytes
    ensures { result ≡ (body.now.file, (body.now.name.fedirp, (body.now.name.fename, (body.now.name.fetype, body.now.name.fedirs)))) }
{
    let file = body.file();
    let fedirp = body.fedirp();
    let fename = body.fename();
    let fetype = body.fetype();
    let fedirs = body.fedirs();
    (file, (fedirp, (fename, (fetype, fedirs))))
}

/// Compares two names by their bytes; a missing one comes first.
fn cmp_contents(a: Option<Body5>, b: Option<Body5>) -> Ordering
    ensures { result ≡ option_cmp name_body_cmp a b }
{
    match a {
        Some(a) => match b {
            Some(b) => bytes_of(&a).cmp(&bytes_of(&b)),
            None => Ordering::Greater,
        },
        None => match b {
            Some(_) => Ordering::Less,
            None => Ordering::Equal,
        },
    }
}

/// The contents of the names of a county. There are fewer than 2^32.
#[derive(Drop)]
pub(crate) struct NameContents<'a, C: Chart> {
    pub(crate) chart: &'a C,
    ghost few: { length (C.county chart.now).names < 2 ^ 32 },
}

impl<C: Chart> Contents for NameContents<'_, C> {
    ghost use Rattle.std.specs.Prelude.{length};
    ghost use Rattle.std.proofs.lemmas.Cmp.{on_total};
    ghost use Rattle.canonical_form.proofs.Choices.AscendingArrangement.{options_total};
    ghost use Rattle.county_chart.specs.ChartWords.{name_at};
    ghost use Rattle.county_chart.specs.Laws.KeyOrders.{name_body_keys};
    ghost use Rattle.arranged_county.specs.ContentItems.{name_content_cmp};

    ghost places = { λ names. length (C.county names.chart.now).names };

    ghost order = { λ names. name_content_cmp (C.county names.chart.now) };

    fn count(&self) -> u32 {
        self.chart.name_count() as u32
    }

    fn compare(&self, a: u32, b: u32) -> Ordering {
        cmp_contents(
            self.chart.name_body_at(a as usize),
            self.chart.name_body_at(b as usize),
        )
    }

    ghost total = { λ names. on_total (name_at (C.county names.chart.now)) (options_total name_body_keys.total) };
}
