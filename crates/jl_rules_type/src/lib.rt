//! The rules on types and values, 1 to 10, and their checkers.
#![tactic(auto)]

mod nan_made;

pub use nan_made::{MakesNan, NanMade};

mod undefined_joined;

pub use undefined_joined::{JoinsUndefined, UndefinedJoined};

mod object_joined;

pub use object_joined::{JoinsObject, ObjectJoined};

mod undefined_key;

pub use undefined_key::{TakesUndefinedKey, UndefinedKey};

mod put_on_primitive;

pub use put_on_primitive::{PutOnPrimitive, PutsOnPrimitive};

mod wrapped_condition;

pub use wrapped_condition::{TestsWrapper, WrappedCondition};

mod loose_equal;

pub use loose_equal::{EqualsLoosely, LooseEqual};

mod odd_compare;

pub use odd_compare::{ComparesOddly, OddCompare};

mod typeof_text;

pub use typeof_text::{ComparesTypeof, TypeofText};

mod bits_of_nothing;

pub use bits_of_nothing::{BitsOfNothing, TakesBitsOfNothing};
