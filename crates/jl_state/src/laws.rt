//! Laws over the definitions; each is the contract of a function that does nothing.
ghost use Rattle.std.specs.Prelude.{◌≡◌, false, true, List, MatchOption};
ghost use Rattle.std.specs.List.{All};
ghost use Rattle.jl_value.specs.declared.ending.Completion.{Completion};
ghost use Rattle.jl_state.specs.HandlerDepths.{IsGreatestHandler};
ghost use Rattle.jl_state.specs.Handlers.{handles, is_handler, nearest_handler};
ghost use Rattle.jl_state.specs.declared.frame.Frame.{Frame};

/// A handler is a frame that takes some completion.
#[tactic(auto, using(crate::proofs::Passing::handler_takes, crate::proofs::Passing::taker_is_handler))]
pub fn handlers_take()
    ensures some { (f : Frame) → is_handler f ≡ true → (how : Completion) × (handles f how ≡ true) }
    ensures alone { (f : Frame) (how : Completion) → handles f how ≡ true → is_handler f ≡ true }
{}

/// The nearest handler of frames is that which stands at the greatest depth; where no handler stands, there is none.
#[tactic(auto, using(crate::proofs::Depths::nearest_is_greatest))]
pub fn nearest_is_greatest()
    ensures { (frames : List Frame) → MatchOption (nearest_handler frames) (All (λ f. is_handler f ≡ false) frames)
        (IsGreatestHandler frames) }
{}
