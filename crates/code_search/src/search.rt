// Lists of codes whose numbers grow.
ghost use Rattle.std.specs.Prelude.{◌≡◌, true, find, IfSome, Some};
ghost use Rattle.std.specs.Ordering.{int_eq};
ghost use Rattle.code_search.specs.Growing.{AreGrowing};

use fix_values::Code;

/// Whether the number of each code is greater than that of the code before it.
pub fn are_growing(codes: &[Code]) -> bool
    ensures { result ≡ true → AreGrowing codes.now }
{
    let mut at = codes.len();
    while at > 1 {
        if codes[at - 2].number >= codes[at - 1].number {
            return false;
        }
        at -= 1;
    }
    true
}

/// The code of a number. `None` is inconclusive.
pub fn code_of(codes: &[Code], number: i128) -> Option<&Code>
    requires { AreGrowing codes.now }
    ensures { IfSome result (λ code. find (λ c. int_eq c.number number) codes.now ≡ Some code.now) }
{
    let mut low = 0;
    let mut high = codes.len();
    while low < high {
        let middle = low + (high - low) / 2;
        let here = &codes[middle];
        if here.number == number {
            return Some(here);
        }
        if here.number < number {
            low = middle + 1;
        } else {
            high = middle;
        }
    }
    None
}
