// The bits in which attributes offend against masks: how many are missing, how many prohibited, and the lowest of them all.
#![tactic(auto)]

ghost use Rattle.std.specs.Prelude.{◌≡◌};
ghost use Rattle.bits.specs.Bits.{missing_bits, prohibited_bits, lowest_bit};

// How many of the required bits are not set.
pub fn missing(must: u32, attributes: u32) -> u32
    ensures { result ≡ missing_bits must attributes }
{
    u32::count_ones(must & !attributes)
}

// How many of the prohibited bits are set.
pub fn prohibited(cant: u32, attributes: u32) -> u32
    ensures { result ≡ prohibited_bits cant attributes }
{
    u32::count_ones(cant & attributes)
}

// The lowest bit that is required and not set, or prohibited and set; 32 where there is none.
pub fn lowest(must: u32, cant: u32, attributes: u32) -> u32
    ensures { result ≡ lowest_bit must cant attributes }
{
    u32::trailing_zeros(must & !attributes | cant & attributes)
}
