//! Laws of the definitions, stated as functions without a body.

ghost use Rattle.std.specs.Prelude.{◌≡◌, ◌↔◌, ℕ, ℤ, Bool, List, Some, None, length};
ghost use Rattle.byte_digits.specs.Digits.{IsBytes};
ghost use Rattle.sbe_types.specs.declared.limits.TheConstants.{LENGTH_LIMIT, MEMBER_LIMIT, MESSAGE_LIMIT, NAME_LIMIT, PART_LIMIT, PLACE_LIMIT, TYPE_LIMIT, VALUE_LIMIT};
ghost use Rattle.sbe_types.specs.declared.kind.Order.{Order};
ghost use Rattle.sbe_types.specs.declared.kind.Primitive.{Primitive};
ghost use Rattle.sbe_types.specs.declared.kind.Kind.{Kind, Leaf};
ghost use Rattle.sbe_types.specs.declared.kind.Leaf.{Leaf as LeafOf};
ghost use Rattle.sbe_types.specs.declared.kind.Member.{Member};
ghost use Rattle.sbe_types.specs.declared.message.Value.{Value};
ghost use Rattle.sbe_types.specs.AtPlaces.{members_of, ShowsMembers};
ghost use Rattle.sbe_types.specs.LeafBad.{leaf_bad};
ghost use Rattle.sbe_types.specs.LeafRows.{four, two, ended_bytes, broken_bytes, broken_fault, large_bytes, large_fault};
ghost use Rattle.sbe_types.specs.declared.kind.Order.TheVariants.{Little};
ghost use Rattle.sbe_types.specs.Places.{width, members_end};
ghost use Rattle.sbe_types.specs.Shows.{Shows};
ghost use Rattle.sbe_types.specs.Numbers.{number_of, bytes_of, prim_width};

/// The bytes of a number encode that number, and are as many as the primitive takes.
pub fn bytes_show_their_number()
    ensures number { (order : Order) (prim : Primitive) (n : ℤ) (bytes : List ℕ) → bytes_of order prim n ≡ Some bytes → number_of order prim bytes ≡ n }
    ensures width { (order : Order) (prim : Primitive) (n : ℤ) (bytes : List ℕ) → bytes_of order prim n ≡ Some bytes → (length bytes ≡ prim_width prim) × IsBytes bytes }
{}

/// Bytes, as many as a primitive takes, are the bytes of the number that they encode.
pub fn number_has_its_bytes()
    ensures { (order : Order) (prim : Primitive) (bytes : List ℕ) → length bytes ≡ prim_width prim → IsBytes bytes
        → bytes_of order prim (number_of order prim bytes) ≡ Some bytes }
{}

/// A composite has its value exactly if each member has its own at its place, and it ends where the members end.
pub fn members_show_at_their_places()
    ensures shown { (order : Order) (known : Bool) (kind : Kind) (members : List Member) (v : Value) (b : List ℕ)
        → members_of kind ≡ Some members → Shows order known kind v b ↔ ShowsMembers order known members v b }
    ensures width { (kind : Kind) (members : List Member) → members_of kind ≡ Some members → width kind ≡ members_end 0 members }
{}

/// Bytes, as many as a leaf takes, have no fault exactly if they encode a value of it.
pub fn no_fault_shows_a_value()
    ensures { (order : Order) (known : Bool) (leaf : LeafOf) (b : List ℕ) → length b ≡ width (Leaf leaf)
        → (leaf_bad order leaf b ≡ None) ↔ ((v : Value) × Shows order known (Leaf leaf) v b) }
{}

/// On worked examples: what follows the end of a text is no fault; a byte outside its range is, and so is a number
/// outside its range.
pub fn faults_of_worked_leaves()
    ensures ended { leaf_bad Little four ended_bytes ≡ None }
    ensures broken { leaf_bad Little four broken_bytes ≡ broken_fault }
    ensures large { leaf_bad Little two large_bytes ≡ large_fault }
{}

/// The limits of schemas.
pub fn limits()
    ensures name { NAME_LIMIT ≡ 64 }
    ensures primitives { LENGTH_LIMIT ≡ 65_535 }
    ensures place { PLACE_LIMIT ≡ 1_048_576 }
    ensures members { MEMBER_LIMIT ≡ 256 }
    ensures values { VALUE_LIMIT ≡ 1024 }
    ensures parts { PART_LIMIT ≡ 256 }
    ensures types { TYPE_LIMIT ≡ 1024 }
    ensures messages { MESSAGE_LIMIT ≡ 512 }
{}
