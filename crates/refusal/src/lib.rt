// Refusals: what is refused and where, and the checks with place 0 that operations have: a wrong length, an unknown choice, a lent list that is too short.
#![tactic(auto)]

ghost use Rattle.std.specs.Prelude.{◌≡◌, ◌<◌, ℕ, Option};
ghost use Rattle.refusal.specs.declared.Kind.{Kind};
ghost use Rattle.refusal.specs.Numbers.{number_of};
ghost use Rattle.refusal.specs.Order.{refuse_if, first};
ghost use Rattle.refusal.specs.Asked.{wrong_length, up_to, unknown_choice, lent, too_short, asked_first};

// What can be wrong, each with its number.
#[derive(Clone, Copy, PartialEq, Eq)]
pub enum Kind {
    BadText = 1,
    WrongLength = 2,
    OutOfRange = 3,
    NotRising = 4,
    BadWinding = 5,
    BadBits = 6,
    OutOfOrder = 7,
    WrongMeeting = 8,
    Unbalanced = 9,
    UnknownChoice = 10,
    TooShort = 11,
    StuckWalk = 12,
    BadLot = 13,
    LotLost = 14,
}

impl Kind {
    // The number by which it is told.
    pub fn number(self) -> u32
        ensures { result ≡ number_of self }
    {
        self as u32
    }
}

// A refusal: what is wrong, and at which place.
#[derive(Clone, Copy, PartialEq, Eq)]
pub struct Refusal {
    pub kind: Kind,
    pub place: usize,
}

// Whether a list of so many numbers does not hold whole entries of `each` numbers, or more than `most` of them.
pub fn is_wrong_length(numbers: usize, each: usize, most: usize) -> bool
    requires { 0 < each }
    ensures { result ≡ wrong_length each most numbers }
{
    (numbers % each != 0) | (most < numbers / each)
}

// Whether a choice is none of 0 to the greatest.
pub fn is_unknown(choice: i32, greatest: i32) -> bool
    ensures { result ≡ unknown_choice (up_to greatest choice) }
{
    !geom::is_within(0, greatest, choice)
}

// Whether a lent list has fewer than `each` entries for each of n. By a quotient, as a product could be too large.
pub fn is_short(entries: usize, each: usize, n: usize) -> bool
    requires { 0 < each }
    ensures { result ≡ too_short n (lent entries each) }
{
    entries / each < n
}

// Refused for this, with place 0, if so.
fn refuse_if(kind: Kind, so: bool) -> Result<(), Refusal>
    ensures { result ≡ refuse_if kind so }
{
    if so {
        return Err(Refusal { kind, place: 0 });
    }
    Ok(())
}

// What is asked first, in its order: 2, 10, 11.
#[tactic(auto, unfolding(crate::specs::Asked::asked_first))]
pub fn asked_first(wrong: bool, unknown: bool, short: bool) -> Result<(), Refusal>
    ensures { result ≡ asked_first wrong unknown short }
{
    refuse_if(Kind::WrongLength, wrong)?;
    refuse_if(Kind::UnknownChoice, unknown)?;
    refuse_if(Kind::TooShort, short)
}

// The first of n places at which something is wrong, by what is wrong at each.
pub fn find_first<F: Fn(usize) -> Option<Kind>>(n: usize, wrong_at: F) -> Result<(), Refusal>
    ghost wrong: { ℕ → Option Kind }
    requires may_look { (i : ℕ) → i < n → F.pre wrong_at i }
    requires tells { (i : ℕ) (told : Option Kind) → i < n → F.post wrong_at i told → told ≡ wrong i }
    ensures { result ≡ first wrong n }
{
    for place in 0..n {
        if let Some(kind) = wrong_at(place) {
            return Err(Refusal { kind, place });
        }
    }
    Ok(())
}
