//! The definitions, computed on worked rows.

ghost use Rattle.std.specs.Prelude.{◌≡◌, pos, negsuc, codes};
ghost use Rattle.fix_dates.specs.Calendar.{month_days, number_of};
ghost use Rattle.fix_dates.specs.Clocks.{clock_text, count_of};
ghost use Rattle.fix_dates.specs.Days.{day_text};
ghost use Rattle.fix_dates.specs.Months.{month_text};
ghost use Rattle.fix_dates.specs.Stamps.{stamp_text, stamp_count};
ghost use Rattle.fix_dates.specs.declared.calendar.Day.{Day};
ghost use Rattle.fix_dates.specs.Rows.{second_day, half_past, first_week};

/// The lengths of February, and the numbers of days.
pub fn calendar_rows()
    ensures century { month_days 1900 2 ≡ 28 }
    ensures fourth_century { month_days 2000 2 ≡ 29 }
    ensures first { number_of (record { year = 0; month = 1; day = 1 }) ≡ negsuc 719_527 }
    ensures epoch { number_of (record { year = 1970; month = 1; day = 1 }) ≡ pos 0 }
    ensures second { number_of second_day ≡ pos 1 }
    ensures leap_day { number_of (record { year = 2000; month = 2; day = 29 }) ≡ pos 11_016 }
    ensures last { number_of (record { year = 9999; month = 12; day = 31 }) ≡ pos 2_932_896 }
{}

/// The texts of a day, a time, a moment and a month.
pub fn text_rows()
    ensures day { day_text second_day ≡ codes "19700102" }
    ensures time { clock_text half_past ≡ codes "00:00:01.500" }
    ensures moment { stamp_text (record { day = second_day; clock = half_past })
        ≡ codes "19700102-00:00:01.500" }
    ensures month { month_text first_week ≡ codes "197001w1" }
{}

/// What a time and a moment count.
pub fn count_rows()
    ensures time { count_of half_past ≡ 1_500 }
    ensures moment { stamp_count (record { day = second_day; clock = half_past }) ≡ pos 86_401_500 }
{}
