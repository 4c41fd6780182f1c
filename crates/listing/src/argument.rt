// The program's argument.
ghost use Rattle.listing.specs.Argument.{CountRead};

// The input count that an argument gives, 0 without one; none where it is no number of 32 bits.
pub fn input_count(argument: Option<&str>) -> Option<u32>
    ensures { CountRead argument.entry result }
{
    match argument {
        Some(text) => text.parse::<u32>().ok(),
        None => Some(0),
    }
}
