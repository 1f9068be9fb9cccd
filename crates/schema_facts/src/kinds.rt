//! Laws of kinds: what the rules of schemas imply for the kinds that type names stand for.

ghost use Rattle.std.specs.Prelude.{◌≡◌, ◌≢◌, ◌+◌, ℕ, List, Ok, Some, true, slice_get, map, AllPairs};
ghost use Rattle.std.specs.List.{AllByRecursion};
ghost use Rattle.std.specs.Str.{bytes_eq};
ghost use Rattle.sbe_types.specs.InForm.{IsName};
ghost use Rattle.sbe_types.specs.Places.{width, is_const};
ghost use Rattle.sbe_types.specs.declared.kind.Member.{Member};
ghost use Rattle.sbe_types.specs.declared.kind.Kind.{Comp};
ghost use Rattle.sbe_types.specs.declared.tree.CompositeEl.{CompositeEl};
ghost use Rattle.sbe_types.specs.declared.tree.FieldEl.{FieldEl};
ghost use Rattle.sbe_types.specs.declared.tree.TypesItem.{TypesItem};
ghost use Rattle.sbe_types.specs.declared.tree.TypesItem.TheVariants as item;
ghost use Rattle.schema_rules.specs.Chains.{composite_has};
ghost use Rattle.schema_rules.specs.Counters.{is_header, is_dimension, is_data};
ghost use Rattle.schema_rules.specs.Facts.{counted, fact_through, field_fact};
ghost use Rattle.schema_rules.specs.Judging.{first_of};
ghost use Rattle.schema_rules.specs.Kinds.{use_of, members_of, found_kind, kind_through, kind_named, field_kind, members_named};
ghost use Rattle.schema_rules.specs.Names.{type_named};
ghost use Rattle.schema_rules.specs.PartRules.{Scope, PartsBefore, field_rules, field_check};
ghost use Rattle.schema_rules.specs.Resolved.{length_in};
ghost use Rattle.schema_facts.specs.InOrder.{leaves, height, AreAccepted};
ghost use Rattle.schema_facts.specs.InOrder.{IsKindWithin, IsKindInOrder, IsCompositeInOrder, IsLengthInOrder};
ghost use Rattle.schema_facts.specs.KindRows as row;
ghost use Rattle.schema_facts.specs.Measured.{IsHeader, IsDimension};
ghost use Rattle.schema_rules.specs.Rows.Schemas.{ping, nul};
ghost use Rattle.sbe_types.specs.declared.schema.Field.{Field};
ghost use Rattle.sbe_types.specs.declared.schema.Level.{out-Level};

/// If a schema's types meet the rules, a field that meets its own has a kind in order: numbers, names, places and
/// limits.
pub fn kinds_of_fields_are_in_order()
    ensures judged { (scope : Scope) (before : PartsBefore) (f : FieldEl) → AreAccepted scope.types
        → field_check scope before f ≡ Ok tt → IsKindInOrder (field_kind scope.types f) }
    ensures rules { (types : List TypesItem) (reached : ℕ) (f : FieldEl) → AreAccepted types
        → first_of (field_rules types reached f) ≡ Ok tt → IsKindInOrder (field_kind types f) }
{}

/// If a schema's types meet the rules, each field's kind is within the limits as a whole.
pub fn kinds_of_fields_keep_limits()
    ensures { (types : List TypesItem) (f : FieldEl) → AreAccepted types → IsKindWithin (field_kind types f) }
{}

/// If a schema's types meet the rules, the members that a name stands for are a composite in order.
pub fn composites_are_in_order()
    ensures { (types : List TypesItem) (name : List ℕ) → AreAccepted types
        → IsCompositeInOrder (Comp (members_named types name)) }
{}

/// A header, a dimension or a type of data that meets the rules has its numbers.
pub fn counters_are_found()
    ensures header { (types : List TypesItem) (name : List ℕ) → AreAccepted types
        → is_header (members_named types name) ≡ true → IsHeader (members_named types name) }
    ensures dimension { (types : List TypesItem) (name : List ℕ) → AreAccepted types
        → is_dimension (members_named types name) ≡ true → IsDimension (members_named types name) }
    ensures data { (types : List TypesItem) (name : List ℕ) → AreAccepted types
        → is_data (members_named types name) ≡ true → IsLengthInOrder (length_in (members_named types name)) }
{}

/// What the rules ask of a field's type holds of its kind: whether it is constant, and its width, leaves and height as
/// far as they are counted.
pub fn facts_are_those_of_kinds()
    ensures fixed { (types : List TypesItem) (f : FieldEl) → (field_fact types f).is_fixed ≡ is_const (field_kind types f) }
    ensures width { (types : List TypesItem) (f : FieldEl) → counted (field_fact types f).width ≡ counted (width (field_kind types f)) }
    ensures leaves { (types : List TypesItem) (f : FieldEl) → counted (field_fact types f).leaves ≡ counted (leaves (field_kind types f)) }
    ensures height { (types : List TypesItem) (f : FieldEl) → counted (field_fact types f).height ≡ counted (height (field_kind types f)) }
{}

/// The same for a name, resolved through equally many names.
pub fn facts_of_names_are_those_of_kinds()
    ensures fixed { (n : ℕ) (types : List TypesItem) (name : List ℕ)
        → (fact_through n types name).is_fixed ≡ is_const (kind_through n types name) }
    ensures width { (n : ℕ) (types : List TypesItem) (name : List ℕ)
        → counted (fact_through n types name).width ≡ counted (width (kind_through n types name)) }
    ensures leaves { (n : ℕ) (types : List TypesItem) (name : List ℕ)
        → counted (fact_through n types name).leaves ≡ counted (leaves (kind_through n types name)) }
    ensures height { (n : ℕ) (types : List TypesItem) (name : List ℕ)
        → counted (fact_through n types name).height ≡ counted (height (kind_through n types name)) }
{}

/// If a schema's types meet the rules, four names reach everything in a kind: following more changes nothing in what a
/// ref in a composite names, in a composite's members, or in a field.
pub fn more_names_change_nothing()
    ensures refs { (types : List TypesItem) (i n : ℕ) (c : CompositeEl) (name : List ℕ) → AreAccepted types
        → slice_get types i ≡ Some (item.Composite c) → composite_has (bytes_eq name) c ≡ true → kind_through (n + 4) types name ≡ kind_named types name }
    ensures members { (types : List TypesItem) (i n : ℕ) (c : CompositeEl) → AreAccepted types → slice_get types i ≡ Some (item.Composite c)
        → members_of types (kind_through (n + 4) types) c.children ≡ members_of types (kind_named types) c.children }
    ensures fields { (types : List TypesItem) (n : ℕ) (f : FieldEl) → AreAccepted types
        → found_kind types (kind_through (n + 4) types) (use_of f) (type_named types f.type_name) ≡ field_kind types f }
{}

/// Each member of a composite in order has a well-formed name, different from those of the others, and a kind in order.
pub fn members_of_kinds_are_in_order()
    ensures names { (ms : List Member) → IsKindInOrder (Comp ms) → AllByRecursion IsName (map (λ (m : Member). m.name) ms) }
    ensures differ { (ms : List Member) → IsKindInOrder (Comp ms) → AllPairs (λ a b. a ≢ b) (map (λ (m : Member). m.name) ms) }
    ensures kinds { (ms : List Member) → IsKindInOrder (Comp ms) → AllByRecursion (λ (m : Member). IsKindInOrder m.kind) ms }
{}

/// The kinds of the fields of worked messages are in order.
pub fn worked_fields_are_in_order()
    ensures ping { AllByRecursion (λ (f : Field). IsKindInOrder f.kind) (out-Level ping).fields }
    ensures nul { AllByRecursion (λ (f : Field). IsKindInOrder f.kind) (out-Level nul).fields }
{}

/// Worked types meet the rules, and a field's kind among them is the worked composite.
pub fn worked_types_stand_for_the_composite()
    ensures accepted { AreAccepted row.types }
    ensures rules { first_of (field_rules row.types 0 row.order_field) ≡ Ok tt }
    ensures kind { field_kind row.types row.order_field ≡ Comp row.order_parts }
{}

/// A worked composite is in order; after a change to one of its facts it isn't.
pub fn worked_kinds_in_order_are_recognised()
    ensures order { IsKindInOrder (Comp row.order_parts) }
    ensures number { IsKindInOrder (Comp row.number_twice) → ⊥ }
    ensures bit { IsKindInOrder (Comp row.bit_above) → ⊥ }
    ensures name { IsKindInOrder (Comp row.name_twice) → ⊥ }
    ensures null { IsKindInOrder row.null_above → ⊥ }
{}
