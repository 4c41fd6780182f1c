// What follows from the meaning of ticks and bands.
ghost use Rattle.std.specs.Prelude.{◌≡◌, pos, neg_ℤ, ◌≤ℤ◌, Ok};
ghost use Rattle.formula.specs.declared.Operation.TheVariants.{Div, Mul};
ghost use Rattle.figure.specs.Bands.{band, band_outcome, ends_of, point};
ghost use Rattle.figure.specs.Laws.{HasEnds, doubled};
ghost use Rattle.figure.specs.Ticks.{tick, tick_outcome};

use crate::band::Bands;
use crate::fault::FigureFault;
use crate::figure::Figure;
use crate::tick::Ticks;
use formula::Operation;

// −7 div 2 is −3.
pub fn fraction_dropped_towards_zero() -> Result<Ticks, FigureFault>
    ensures rule { tick_outcome Div (tick (neg_ℤ (pos 7))) (tick (pos 2)) ≡ Ok (tick (neg_ℤ (pos 3))) }
    ensures answer { result ≡ Ok (tick (neg_ℤ (pos 3))) }
{
    Ticks::operate(Operation::Div, Ticks(-7), Ticks(2))
}

// The band (−2, 3) mul (−5, 4) is (−15, 12).
pub fn least_and_greatest_product() -> Result<Bands, FigureFault>
    ensures rule { band_outcome Mul (band (neg_ℤ (pos 2)) (pos 3)) (band (neg_ℤ (pos 5)) (pos 4)) ≡ Ok (band (neg_ℤ (pos 15)) (pos 12)) }
    ensures answer { result ≡ Ok (band (neg_ℤ (pos 15)) (pos 12)) }
{
    product((-2, 3), (-5, 4))
}

fn product(left: (i32, i32), right: (i32, i32)) -> Result<Bands, FigureFault>
    ensures { result ≡ band_outcome Mul (band left.0 left.1) (band right.0 right.1) }
{
    let left = Bands::between(Ticks(left.0), Ticks(left.1));
    let right = Bands::between(Ticks(right.0), Ticks(right.1));
    Bands::operate(Operation::Mul, left, right)
}

// The ends that an operation gives are in order, so none trades its place.
#[tactic(auto, using(crate::proofs::Orders::ends_in_order, crate::proofs::Ranges::ends_kept))]
pub fn ends_stay_ordered(
    operation: Operation,
    left: Bands,
    right: Bands,
) -> Result<Bands, FigureFault>
    ensures outcome { result ≡ band_outcome operation left right }
    ensures ordered { (ends_of operation left right).low ≤ℤ (ends_of operation left right).high }
    ensures kept { HasEnds (ends_of operation left right) result }
{
    Bands::operate(operation, left, right)
}

// On bands of one number each, bands answer as ticks do, at both ends.
pub fn points_answer_as_ticks(operation: Operation, a: i32, b: i32) -> Result<Bands, FigureFault>
    ensures rule { band_outcome operation (point a) (point b) ≡ doubled (tick_outcome operation (tick a) (tick b)) }
    ensures answer { result ≡ doubled (tick_outcome operation (tick a) (tick b)) }
{
    on_numbers(operation, a, b)
}

fn on_numbers<F: Figure>(operation: Operation, a: i32, b: i32) -> Result<F, FigureFault>
    ensures { result ≡ F.outcome operation (F.number a) (F.number b) }
{
    F::operate(operation, F::number(a), F::number(b))
}
