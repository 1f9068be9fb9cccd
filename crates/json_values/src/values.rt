ghost use Rattle.std.specs.Prelude.{◌≡◌, ◌<◌, ◌+◌, ◌++◌, ◌/◌, ◌%◌, ◌≤◌, ◌∷◌, [], pos, length, take, drop};
ghost use Rattle.std.specs.Fmt.{decimal};
ghost use Rattle.std.specs.Option.{option_map};
ghost use Rattle.serde_json.specs.Data.{null, number, unsigned};
ghost use Rattle.serde_json.specs.Written.{comma_if};
ghost use Rattle.json_values.specs.Values.{number_data, char_data, single_data, enum_data, name_of, constant_data, last_four, digit_pairs, digits_in, padded_digits, digits_in_byte};
ghost use Rattle.json_values.specs.Plain.{plain_text};
ghost use Rattle.printers.specs.Prints.{Prints};

use crate::texts::{put_string, put_text};
use itoa::Buffer;
use printers::Printer;
use sbe_base::Sink;
use sbe_types::{ConstValue, Named};

/// Prints a null.
#[inline(always)]
pub fn put_null<O: Sink>(printer: &mut Printer<'_, O>)
    ensures { Prints O.state printer.old printer.new (plain_text null) }
{
    printer.put(b"null");
}

/// Prints an integer.
pub fn put_number<O: Sink>(printer: &mut Printer<'_, O>, n: &i128)
    ensures { Prints O.state printer.old printer.new (plain_text (number_data n.now)) }
{
    if *n >= 0 && *n < 256 {
        put_small(printer, *n as u8);
    } else if *n >= 0 && *n < 100_000_000 {
        put_middle(printer, *n as u32);
    } else {
        put_any_number(printer, n);
    }
}

/// Prints an integer of at most 64 bits.
#[inline(always)]
pub fn put_small_number<O: Sink>(printer: &mut Printer<'_, O>, n: i64)
    ensures { Prints O.state printer.old printer.new (plain_text (number_data n)) }
{
    if n >= 0 && n < 256 {
        put_small(printer, n as u8);
    } else if n >= 0 && n < 100_000_000 {
        put_middle(printer, n as u32);
    } else {
        put_any_word(printer, n);
    }
}

/// Prints a byte as a number.
#[inline(always)]
#[tactic(auto, using(crate::proofs::Numbers::byte_alone))]
fn put_small<O: Sink>(printer: &mut Printer<'_, O>, n: u8)
    ensures { Prints O.state printer.old printer.new (plain_text (number_data (pos n))) }
{
    printer.put_front(first_of(n), digits_of_byte(n), b"", b"");
}

/// Prints a number of three to eight digits.
#[inline(never)]
#[tactic(auto, using(crate::proofs::Numbers::long_number))]
fn put_middle<O: Sink>(printer: &mut Printer<'_, O>, n: u32)
    requires least { 100 ≤ n }
    requires most { n < 100_000_000 }
    ensures { Prints O.state printer.old printer.new (plain_text (number_data (pos n))) }
{
    if n < 10_000 {
        put_short(printer, n as u16);
    } else {
        put_long(printer, (n / 10_000) as u16, (n % 10_000) as u16);
    }
}

/// Prints a number of three or four digits.
#[inline(always)]
#[tactic(auto, using(crate::proofs::Numbers::lead_pair))]
fn put_short<O: Sink>(printer: &mut Printer<'_, O>, n: u16)
    requires least { 100 ≤ n }
    requires most { n < 10_000 }
    ensures { Prints O.state printer.old printer.new (plain_text (number_data (pos n))) }
{
    let high = n / 100;
    printer.put_front(lead_of(high), digits_of(high), pair_of(n % 100), b"");
}

/// Prints a number of at most four digits, followed by four more digits.
#[inline(always)]
#[tactic(auto, using(crate::proofs::Numbers::lead_four))]
fn put_long<O: Sink>(printer: &mut Printer<'_, O>, high: u16, low: u16)
    requires high { high < 10_000 }
    requires low { low < 10_000 }
    ensures { Prints O.state printer.old printer.new (plain_text (number_data (pos high)) ++ last_four low) }
{
    if high < 100 {
        printer.put_front(
            lead_of(high),
            digits_of(high),
            pair_of(low / 100),
            pair_of(low % 100),
        );
    } else {
        put_longer(printer, high, low);
    }
}

/// Prints a number of three or four digits, followed by four more digits.
#[inline(never)]
#[tactic(auto, using(crate::proofs::Numbers::longer))]
fn put_longer<O: Sink>(printer: &mut Printer<'_, O>, high: u16, low: u16)
    requires least { 100 ≤ high }
    requires high { high < 10_000 }
    requires low { low < 10_000 }
    ensures { Prints O.state printer.old printer.new (plain_text (number_data (pos high)) ++ last_four low) }
{
    put_short(printer, high);
    printer.put_between(pair_of(low / 100), pair_of(low % 100), b"");
}

/// The two digits of each number below 100, one after another.
const PAIRS: &[u8] =
    b"00010203040506070809101112131415161718192021222324252627282930313233343536373839404142434445464748495051525354555657585960616263646566676869707172737475767778798081828384858687888990919293949596979899";

/// The two digits of a number below 100.
#[inline(always)]
#[tactic(auto, using(crate::proofs::Numbers::pair_there))]
fn pair_of(n: u16) -> &'static [u8]
    requires { n < 100 }
    ensures digits { result.now ≡ (48 + n / 10) ∷ (48 + n % 10) ∷ [] }
    ensures size { length result.now ≡ 2 }
{
    two_at(2 * n as usize)
}

/// How many digits a number below 100 has.
#[inline(always)]
fn digits_of(n: u16) -> usize
    requires { n < 100 }
    ensures { result ≡ digits_in n }
{
    2 - (n < 10) as usize
}

/// Two bytes that begin with the digits of a number below 100.
#[inline(always)]
#[tactic(auto, using(crate::proofs::Numbers::lead_there))]
fn lead_of(n: u16) -> &'static [u8]
    requires { n < 100 }
    ensures digits { take (digits_in n) result.now ≡ decimal n }
    ensures size { length result.now ≡ 2 }
{
    two_at(2 * n as usize + (2 - digits_of(n)))
}

/// Two digits of the pairs.
#[inline(always)]
fn two_at(at: usize) -> &'static [u8]
    requires { at + 2 ≤ 200 }
    ensures bytes { result.now ≡ take 2 (drop at digit_pairs) }
    ensures size { length result.now ≡ 2 }
{
    &PAIRS[at..at + 2]
}

/// The decimal digits of each byte, padded with spaces to four bytes.
const PADDED_DIGITS: &[u8] =
    b"0   1   2   3   4   5   6   7   8   9   10  11  12  13  14  15  16  17  18  19  20  21  22  23  24  25  26  27  28  29  30  31  32  33  34  35  36  37  38  39  40  41  42  43  44  45  46  47  48  49  50  51  52  53  54  55  56  57  58  59  60  61  62  63  64  65  66  67  68  69  70  71  72  73  74  75  76  77  78  79  80  81  82  83  84  85  86  87  88  89  90  91  92  93  94  95  96  97  98  99  100 101 102 103 104 105 106 107 108 109 110 111 112 113 114 115 116 117 118 119 120 121 122 123 124 125 126 127 128 129 130 131 132 133 134 135 136 137 138 139 140 141 142 143 144 145 146 147 148 149 150 151 152 153 154 155 156 157 158 159 160 161 162 163 164 165 166 167 168 169 170 171 172 173 174 175 176 177 178 179 180 181 182 183 184 185 186 187 188 189 190 191 192 193 194 195 196 197 198 199 200 201 202 203 204 205 206 207 208 209 210 211 212 213 214 215 216 217 218 219 220 221 222 223 224 225 226 227 228 229 230 231 232 233 234 235 236 237 238 239 240 241 242 243 244 245 246 247 248 249 250 251 252 253 254 255 ";

/// How many digits a byte has.
#[inline(always)]
fn digits_of_byte(n: u8) -> usize
    ensures { result ≡ digits_in_byte n }
{
    3 - (n < 10) as usize - (n < 100) as usize
}

/// Four bytes that begin with the digits of a byte.
#[inline(always)]
#[tactic(auto, using(crate::proofs::Numbers::first_there))]
fn first_of(n: u8) -> &'static [u8]
    ensures digits { take (digits_in_byte n) result.now ≡ decimal n }
    ensures size { length result.now ≡ 4 }
{
    four_at(4 * n as usize)
}

/// Four bytes of the padded digits.
#[inline(always)]
fn four_at(at: usize) -> &'static [u8]
    requires { at + 4 ≤ 1_024 }
    ensures bytes { result.now ≡ take 4 (drop at padded_digits) }
    ensures size { length result.now ≡ 4 }
{
    &PADDED_DIGITS[at..at + 4]
}

/// Prints an integer of any number of digits.
#[inline(never)]
#[tactic(auto, using(crate::proofs::Numbers::number_is))]
fn put_any_number<O: Sink>(printer: &mut Printer<'_, O>, n: &i128)
    ensures { Prints O.state printer.old printer.new (plain_text (number_data n.now)) }
{
    let mut buffer = Buffer::new();
    printer.put(buffer.format(*n).as_bytes());
}

/// Prints an integer of at most 64 bits and any number of digits.
#[inline(never)]
fn put_any_word<O: Sink>(printer: &mut Printer<'_, O>, n: i64)
    ensures { Prints O.state printer.old printer.new (plain_text (number_data n)) }
{
    let mut buffer = Buffer::new();
    printer.put(buffer.format(n).as_bytes());
}

/// Prints a count.
#[inline(always)]
pub fn put_count<O: Sink>(printer: &mut Printer<'_, O>, n: u64)
    ensures { Prints O.state printer.old printer.new (plain_text (number (unsigned n))) }
{
    if n < 256 {
        put_small(printer, n as u8);
    } else if n < 100_000_000 {
        put_middle(printer, n as u32);
    } else {
        put_any_count(printer, n);
    }
}

/// Prints a count of any number of digits.
#[inline(never)]
fn put_any_count<O: Sink>(printer: &mut Printer<'_, O>, n: u64)
    ensures { Prints O.state printer.old printer.new (plain_text (number (unsigned n))) }
{
    let mut buffer = Buffer::new();
    printer.put(buffer.format(n).as_bytes());
}

/// Prints a char: as a string of one character if it is from 20 to 7e, and otherwise as an integer.
pub fn put_char<O: Sink>(printer: &mut Printer<'_, O>, n: &i128)
    ensures { Prints O.state printer.old printer.new (plain_text (char_data n.now)) }
{
    if *n >= 32 && *n <= 126 {
        put_string(printer, &[*n as u8]);
    } else {
        put_number(printer, n);
    }
}

/// Prints a single number: a char, or an integer.
pub fn put_single<O: Sink>(printer: &mut Printer<'_, O>, is_char: bool, n: &i128)
    ensures { Prints O.state printer.old printer.new (plain_text (single_data is_char n.now)) }
{
    if is_char {
        put_char(printer, n);
    } else {
        put_number(printer, n);
    }
}

/// Prints a comma if something precedes.
#[inline(always)]
pub fn put_comma<O: Sink>(printer: &mut Printer<'_, O>, later: bool)
    ensures { Prints O.state printer.old printer.new (comma_if later) }
{
    if later {
        printer.put(b",");
    }
}

/// The name of the first valid value with this number.
pub fn name_of<'a>(names: &'a [Named], n: &i128) -> Option<&'a [u8]>
    ensures { option_map (λ name. name.now) result ≡ name_of names.now n.now }
{
    for named in names {
        if named.number == *n {
            return Some(named.name.as_slice());
        }
    }
    None
}

/// Prints an enum: the name of its number, or the number if no valid value has it.
pub fn put_enum<O: Sink>(printer: &mut Printer<'_, O>, names: &[Named], n: &i128)
    ensures { Prints O.state printer.old printer.new (plain_text (enum_data names.now n.now)) }
{
    match name_of(names, n) {
        Some(name) => put_string(printer, name),
        None => put_number(printer, n),
    }
}

/// Prints a constant as its value; a valid value by its name.
pub fn put_constant<O: Sink>(printer: &mut Printer<'_, O>, constant: &ConstValue)
    ensures { Prints O.state printer.old printer.new (plain_text (constant_data constant.now)) }
{
    match constant {
        ConstValue::Num(n) => put_number(printer, n),
        ConstValue::Text(bytes) => put_text(printer, bytes.as_slice()),
        ConstValue::Code(_, named) => put_string(printer, named.name.as_slice()),
    }
}
