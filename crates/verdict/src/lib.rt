// The verdict on a check sheet, by what its equalities force.
#![tactic(auto)]

ghost use Rattle.std.specs.Prelude.{◌≡◌};
ghost use Rattle.classes.specs.Classes.{pairs_of, labelling, all_same};
ghost use Rattle.verdict.specs.Verdict.{same_subterms, decided};

use classes::LabelCells;
use symbolic::Symbols;

// Whether two subterm lists agree: in length, in their steps, and in the labels of their names. By number, since a lone last cell
// is left out.
fn same_subterms(labels: &LabelCells, made: &[u32], due: &[u32]) -> bool
    ensures { result ≡ same_subterms labels.now (pairs_of made.now) (pairs_of due.now) }
{
    let mut i = 0;
    while i + 1 < made.len() {
        if due.len() <= i + 1 {
            return false;
        }
        if made[i] != due[i] {
            return false;
        }
        if classes::label_of(labels, made[i + 1]) != classes::label_of(labels, due[i + 1]) {
            return false;
        }
        i += 2;
    }
    due.len() <= i + 1
}

// Whether the pairs wanted force the pairs demanded.
fn is_demanded_wanted(demands: &[u32], wants: &[u32]) -> bool
    ensures { result ≡ all_same (labelling (pairs_of wants.now)) (pairs_of demands.now) }
{
    let mut labels = classes::room();
    classes::label(&mut labels, wants);
    classes::all_same(&labels, demands)
}

// Whether the instructions are right: what they demand forces what is wanted, each argument and each subterm, and what is
// wanted forces what they demand.
#[tactic(auto, unfolding(crate::specs::Verdict::decided_by, symbolic::specs::Symbolic::listed))]
pub fn is_right(symbols: &Symbols) -> bool
    ensures { result ≡ decided symbols.now }
{
    let demanded = symbols.doing.demands.listed();
    let wanted = symbols.wanting.wants.listed();
    let mut labels = classes::room();
    classes::label(&mut labels, demanded);
    classes::all_same(&labels, wanted)
        && classes::all_same(&labels, symbols.claims.listed())
        && same_subterms(
            &labels,
            symbols.doing.made.listed(),
            symbols.wanting.due.listed(),
        )
        && is_demanded_wanted(demanded, wanted)
}
