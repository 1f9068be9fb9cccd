//! Laws of the definitions, stated as functions without a body: what was written reads back, a value has one text, and
//! the calendar is that of jiff.

ghost use Rattle.std.specs.Prelude.{◌≡◌, ◌<◌, ℕ, ℤ, pos, List, Result, IsOkAnd};
ghost use Rattle.jiff_core.specs.Calendar.{days_from_civil};
ghost use Rattle.fix_values.specs.declared.rule.V.{V};
ghost use Rattle.fix_dates.specs.declared.calendar.Day.{Day};
ghost use Rattle.fix_dates.specs.declared.moment.Moment.{Moment};
ghost use Rattle.fix_dates.specs.declared.month.MonthYear.{MonthYear};
ghost use Rattle.fix_dates.specs.Calendar.{IsDay, number_of};
ghost use Rattle.fix_dates.specs.Clocks.{times_in};
ghost use Rattle.fix_dates.specs.Days.{days};
ghost use Rattle.fix_dates.specs.Months.{months};
ghost use Rattle.fix_dates.specs.Reading.{Spells, Reads};
ghost use Rattle.fix_dates.specs.Stamps.{times, stamps, stamps_in, SameTime, FitsIn};

/// The calendar, by its own rule, gives each day of the years 0 to 9999 the number that jiff's gives it.
pub fn calendars_agree()
    ensures { (day : Day) → IsDay day → day.year < 10000
        → number_of day ≡ days_from_civil (pos day.year) day.month day.day }
{}

/// A text that was written for a day is read as that day.
pub fn a_shown_day_is_read()
    ensures { (n : ℤ) (text : List ℕ) (answer : Result ℤ V)
        → Spells days text n → Reads days text answer → answer ≡ Ok n }
{}

/// A text that was written for a month is read as that month.
pub fn a_shown_month_is_read()
    ensures { (value : MonthYear) (text : List ℕ) (answer : Result MonthYear V)
        → Spells months text value → Reads months text answer → answer ≡ Ok value }
{}

/// A text that was written for a time of day in a unit is read as a moment of the same length, with the unit's digits.
pub fn a_shown_time_is_read()
    ensures { (n : ℤ) (unit : ℕ) (text : List ℕ) (answer : Result Moment V)
        → Spells (times_in unit) text n → Reads times text answer
        → IsOkAnd answer (λ moment. SameTime moment.nanos n unit × (moment.digits ≡ unit)) }
{}

/// A text that was written for a moment in a unit is read as one of the same length, with the unit's digits.
pub fn a_shown_moment_is_read()
    ensures { (n : ℤ) (unit : ℕ) (text : List ℕ) (answer : Result Moment V)
        → Spells (stamps_in unit) text n → Reads stamps text answer
        → IsOkAnd answer (λ moment. SameTime moment.nanos n unit × (moment.digits ≡ unit)) }
{}

/// A moment of the same length as a number of units fits the unit as that number.
pub fn a_moment_fits_as_it_was()
    ensures { (moment : Moment) (n : ℤ) (unit : ℕ) (answer : Result ℤ V)
        → SameTime moment.nanos n unit → FitsIn moment unit answer → answer ≡ Ok n }
{}

/// A value has one text.
pub fn a_value_has_one_text()
    ensures day { (n : ℤ) (a b : List ℕ) → Spells days a n → Spells days b n → a ≡ b }
    ensures month { (value : MonthYear) (a b : List ℕ)
        → Spells months a value → Spells months b value → a ≡ b }
    ensures time { (n : ℤ) (unit : ℕ) (a b : List ℕ)
        → Spells (times_in unit) a n → Spells (times_in unit) b n → a ≡ b }
    ensures moment { (n : ℤ) (unit : ℕ) (a b : List ℕ)
        → Spells (stamps_in unit) a n → Spells (stamps_in unit) b n → a ≡ b }
{}

/// A text has one value.
pub fn a_text_has_one_value()
    ensures day { (text : List ℕ) (m n : ℤ) → Spells days text m → Spells days text n → m ≡ n }
    ensures month { (text : List ℕ) (v w : MonthYear)
        → Spells months text v → Spells months text w → v ≡ w }
    ensures time { (text : List ℕ) (a b : Moment)
        → Spells times text a → Spells times text b
        → (a.nanos ≡ b.nanos) × (a.digits ≡ b.digits) }
    ensures moment { (text : List ℕ) (a b : Moment)
        → Spells stamps text a → Spells stamps text b
        → (a.nanos ≡ b.nanos) × (a.digits ≡ b.digits) }
{}

/// A text that is refused has no value, and exactly one refusal.
pub fn a_refused_text_has_one_refusal()
    ensures day { (text : List ℕ) (v : V) (answer : Result ℤ V)
        → Reads days text (Err v) → Reads days text answer → answer ≡ Err v }
    ensures month { (text : List ℕ) (v : V) (answer : Result MonthYear V)
        → Reads months text (Err v) → Reads months text answer → answer ≡ Err v }
    ensures time { (text : List ℕ) (v : V) (answer : Result Moment V)
        → Reads times text (Err v) → Reads times text answer → answer ≡ Err v }
    ensures moment { (text : List ℕ) (v : V) (answer : Result Moment V)
        → Reads stamps text (Err v) → Reads stamps text answer → answer ≡ Err v }
{}
