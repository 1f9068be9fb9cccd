ghost use Rattle.std.specs.Prelude.{◌≡◌, ◌≤◌, ◌∷◌, length, take, drop, option_map, slice_get, MatchOption, Some, None, IfOk, IfSome};
ghost use Rattle.reference_graph.specs.Expansion.{Structure};
ghost use Rattle.structure_rows.specs.Rows.{rows_of};
ghost use Rattle.bridge_plan.specs.Mappings.{is_plain, inner_of};
ghost use Rattle.level_places.specs.Places.{lent_rows, FirstPlace, HasPlaces};

use id_tables::IdTable;
use lists::{List, NoMem};
use std::alloc::Global;
use structure_rows::PlaceRow;

/// The places of a level, by tag.
#[derive(Drop)]
pub struct LevelPlaces<'a> {
    fields: IdTable,
    groups: IdTable,
    /// For each group the rows of its entries.
    entries: Vec<&'a [PlaceRow]>,
}

impl<'a> LevelPlaces<'a> {
    /// Creates the places of the level with these rows.
    ///
    /// # Errors
    ///
    /// If memory runs out.
    pub fn new(alloc: Global, rows: &'a [PlaceRow]) -> Result<LevelPlaces<'a>, NoMem>
        ensures { IfOk result (λ places. (s : Structure) → rows.now ≡ rows_of s → HasPlaces s places) }
    {
        let mut fields = List::new(alloc);
        let mut groups = List::new(alloc);
        let mut entries = Vec::new(alloc);
        let mut left = rows;
        'rows: while let [row, rest @ ..] = left {
            let (own, after) = first_place(*row, rest);
            match own {
                None => {
                    fields.push(row.tag)?;
                    left = after;
                }
                Some(own) => {
                    groups.push(row.tag)?;
                    entries.push(own)?;
                    left = after;
                }
            }
        }
        Ok(LevelPlaces {
            fields: IdTable::new(alloc, fields)?,
            groups: IdTable::new(alloc, groups)?,
            entries,
        })
    }

    /// Whether the place with this tag is a field.
    pub fn is_field(&self, tag: u32) -> bool
        ensures { (s : Structure) → HasPlaces s self.now → result ≡ is_plain tag s }
    {
        self.fields.place(tag).is_some()
    }

    /// The rows of the entries of the group whose count has this tag.
    pub fn entries(&self, tag: u32) -> Option<&'a [PlaceRow]>
        ensures { (s : Structure) → HasPlaces s self.now
            → MatchOption result (inner_of tag s ≡ None)
            (λ rows. (inner : Structure) × (inner_of tag s ≡ Some inner) × (rows.now ≡ rows_of inner)) }
    {
        match self.groups.place(tag) {
            None => None,
            Some(i) => rows_at(self.entries.as_slice(), i),
        }
    }
}

/// The rows at an index.
fn rows_at<'a>(all: &[&'a [PlaceRow]], i: usize) -> Option<&'a [PlaceRow]>
    ensures { MatchOption result (slice_get (lent_rows all.now) i ≡ None) (λ rows. slice_get (lent_rows all.now) i ≡ Some rows.now) }
{
    if i >= all.len() {
        return None;
    }
    Some(all[i])
}

/// The rows of a group's entries, if the row belongs to a group, and the rows after them.
pub fn first_place(row: PlaceRow, rest: &[PlaceRow]) -> (Option<&[PlaceRow]>, &[PlaceRow])
    ensures shorter { length result.1.now ≤ length rest.now }
    ensures inside { IfSome result.0 (λ own. length own.now ≤ length rest.now) }
    ensures place { (s : Structure) → row ∷ rest.now ≡ rows_of s → FirstPlace s row.tag (option_map (λ rows. rows.now) result.0) result.1.now }
{
    match row.entries {
        None => (None, rest),
        Some(many) => {
            let many = at_most(many as usize, rest.len());
            (Some(front(rest, many)), rest_from(rest, many))
        }
    }
}

/// The rows from row `n` on.
#[tactic(auto, using(std::proofs::lemmas::List::take_rest))]
fn rest_from(rows: &[PlaceRow], n: usize) -> &[PlaceRow]
    requires { n ≤ length rows.now }
    ensures { result.now ≡ drop n rows.now }
{
    &rows[n..]
}

/// The rows before row `n`.
fn front(rows: &[PlaceRow], n: usize) -> &[PlaceRow]
    requires { n ≤ length rows.now }
    ensures { result.now ≡ take n rows.now }
{
    &rows[..n]
}

/// The lesser of two numbers.
fn at_most(n: usize, most: usize) -> usize
    ensures same { n ≤ most → result ≡ n }
    ensures within { result ≤ most }
{
    if n < most { n } else { most }
}
