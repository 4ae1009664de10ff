//! The ends and the sides of a directed chain, in its direction.

ghost use Rattle.std.specs.Prelude.{Some, length, option_map, ◌<◌, ◌≡◌};
ghost use Rattle.county_chart.specs.ChartWords.{ends_of, sides_of};
ghost use Rattle.county_chart.specs.DirectedChains.{directed_chain};

use crate::arranged_tables::{Ends, Sides};
use county_chart::{Chart, DirectedChain};
use tl_layout::NumberOrNone;

/// Returns the nodes at the start and the end of a directed chain. Its place is below the number of chains.
pub(crate) fn ends_of_directed<C: Chart>(chart: &C, directed: DirectedChain) -> Ends
    requires { directed.place < length (C.county chart.now).chains }
    ensures { Some result ≡ option_map ends_of (directed_chain (C.county chart.now) directed) }
{
    let (start, end) = chart.ends_there(directed.place as usize);
    let start = NumberOrNone::new(start);
    let end = NumberOrNone::new(end);
    if directed.turned {
        (end, start)
    } else {
        (start, end)
    }
}

/// Returns the left and the right side of a directed chain. Its place is below the number of chains.
pub(crate) fn sides_of_directed<C: Chart>(chart: &C, directed: DirectedChain) -> Sides
    requires { directed.place < length (C.county chart.now).chains }
    ensures { Some result ≡ option_map sides_of (directed_chain (C.county chart.now) directed) }
{
    let (left, right) = chart.sides_there(directed.place as usize);
    if directed.turned {
        (right, left)
    } else {
        (left, right)
    }
}
