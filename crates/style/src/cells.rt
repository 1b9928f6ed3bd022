//! The cascade.
ghost use Rattle.std.specs.Prelude.{◌≡◌};
ghost use Rattle.style.specs.Cascade.{empty, all_entered, SpecificityIsTotal, HoldsWinner, RedWins};

use crate::cell::{Declaration, WithSpec};

/// Specificities are totally ordered.
#[tactic(auto, using(crate::proofs::Orders::specificity_is_total))]
pub fn specificity_is_total()
    ensures { SpecificityIsTotal }
{}

fn enter_all<T: Copy>(declarations: &[Declaration<T>]) -> WithSpec<T>
    ensures { result ≡ all_entered empty declarations.now }
{
    let mut cell = WithSpec::new();
    for declaration in declarations {
        cell.enter(*declaration);
    }
    cell
}

/// The cell after all declarations have entered it, one after the other.
#[tactic(auto, using(crate::proofs::Winning::holds_winner))]
pub fn cascade<T: Copy>(declarations: &[Declaration<T>]) -> WithSpec<T>
    ensures { HoldsWinner declarations.now result }
{
    enter_all(declarations)
}

/// After blue by the agent, red by an important declaration of the author, of equal specificity, wins.
pub fn red_wins()
    ensures { RedWins }
{}
