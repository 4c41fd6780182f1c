// What follows for residues: div undoes mul.
ghost use Rattle.std.specs.Prelude.{◌≡◌, ◌≢◌, Ok};
ghost use Rattle.formula.specs.declared.Operation.TheVariants.{Div, Mul};
ghost use Rattle.residues.specs.Averages.{and_then};
ghost use Rattle.residues.specs.Residues.{residue_outcome};

use crate::residue::Residues;
use figure::{Figure, FigureFault};
use formula::Operation;

// (a mul b) div b, which is a again unless b is zero.
#[tactic(auto, using(crate::proofs::Sevens::div_undoes_mul))]
pub(crate) fn back_again(a: Residues, b: Residues) -> Result<Residues, FigureFault>
    ensures meant { result ≡ and_then (residue_outcome Mul a b) (λ product. residue_outcome Div product b) }
    ensures undone { b.value ≢ 0 → result ≡ Ok a }
{
    let product = Residues::operate(Operation::Mul, a, b)?;
    Residues::operate(Operation::Div, product, b)
}
