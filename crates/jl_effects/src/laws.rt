//! Laws over the definitions; each is the contract of a function that does nothing. S is what a store is, C a change
//! of it, F a fault, J a job, R what a job ends with, O an operation, and A what a part ends with; of a row E is a
//! fault and K a call.
ghost use Rattle.std.specs.Prelude.{◌≡◌, ℕ, ◌+◌, ◌≤◌, All, Bool, length};
ghost use Rattle.jl_effects.specs.Effects.{Part, End, and_then, job, Row, row};
ghost use Rattle.jl_effects.specs.Running.{Language, Recorded, RunState, nothing_done, state_of, outcome_then, run};
ghost use Rattle.jl_effects.specs.Running.{everything, keeping};
ghost use Rattle.jl_effects.specs.Running.{steps_taken};
ghost use Rattle.jl_effects.specs.Credit.{Pays};
ghost use Rattle.jl_effects.specs.Telling.{Tells};
ghost use Rattle.jl_effects.specs.Traces.{quietly, with_state, keep_hooks, without_operations};
ghost use Rattle.jl_effects.specs.Growing.{GoesOn, HasLeft, IsLonger};
ghost use Rattle.jl_effects.specs.Keeping.{IsOneOf, FailsAllowed};
ghost use Rattle.jl_effects.specs.Matching.{Matches, JobsMatch, ArePaired, IsWithin, Simulates};
ghost use Rattle.jl_effects.specs.Following.{runs, Follows, IsAny, PartFollows, CallsFollow};

/// What a run has printed, performed and emitted it never takes back, and it ends with no more steps left than it had.
pub fn nothing_is_taken_back<S, C, F, J, R, O, A>()
    ensures goes_on { (l : Language S C F) (k : Recorded O) (jobs : J → Part S C F J R O R) (n : ℕ)
        (p : Part S C F J R O A) (w : RunState S O) → GoesOn w (state_of (run l k jobs n p w)) }
    ensures left { (l : Language S C F) (k : Recorded O) (jobs : J → Part S C F J R O R) (n : ℕ)
        (p : Part S C F J R O A) (w : RunState S O) → HasLeft n (run l k jobs n p w) }
{}

/// A run that is over is the same with more steps, but that more are left; and what one that is spent has printed,
/// performed and emitted are prefixes of what it has with more steps.
#[tactic(auto, using(crate::proofs::Growth::more_steps))]
pub fn more_budget<S, C, F, J, R, O, A>()
    ensures { (l : Language S C F) (k : Recorded O) (jobs : J → Part S C F J R O R) (n d : ℕ)
        (p : Part S C F J R O A) (w : RunState S O) → IsLonger d (run l k jobs n p w) (run l k jobs (n + d) p w) }
{}

/// What every change keeps, a run keeps: where no change leads out of the stores that a T names, no run does.
pub fn changes_keep<S, C, F, J, R, O, A, T>()
    ensures { (l : Language S C F) (stores : T → S)
        → ((c : C) (s : S) → IsOneOf stores s → IsOneOf stores (l.apply c s))
        → (k : Recorded O) (jobs : J → Part S C F J R O R) (n : ℕ) (p : Part S C F J R O A) (w : RunState S O)
        → IsOneOf stores w.store → IsOneOf stores (state_of (run l k jobs n p w)).store }
{}

/// A run of two parts in a row is a run of the first, and then of the second.
pub fn parts_run_in_a_row<S, C, F, J, R, O, A, B>()
    ensures { (l : Language S C F) (k : Recorded O) (jobs : J → Part S C F J R O R) (n : ℕ)
        (p : Part S C F J R O A) (q : A → Part S C F J R O B) (w : RunState S O)
        → run l k jobs n (and_then p q) w ≡ outcome_then (run l k jobs n p w) (λ a left v. run l k jobs left (q a) v) }
{}

/// It makes no difference how parts in a row are put together, and an end alone adds nothing.
pub fn parts_associate<S, C, F, J, R, O, A, B, D>()
    ensures three { (p : Part S C F J R O A) (q : A → Part S C F J R O B) (r : B → Part S C F J R O D)
        → and_then (and_then p q) r ≡ and_then p (λ a. and_then (q a) r) }
    ensures end { (p : Part S C F J R O A) → and_then p End ≡ p }
{}

/// Only the hooks of a run depend on what is kept of them: they are the kept ones of those that the run has which
/// records everything.
pub fn kept_hooks<S, C, F, J, R, O, A>()
    ensures { (l : Language S C F) (kept : O → Bool) (jobs : J → Part S C F J R O R) (n : ℕ)
        (p : Part S C F J R O A) (w : RunState S O)
        → run l (keeping kept) jobs n p (keep_hooks kept w)
        ≡ with_state (keep_hooks kept) (run l everything jobs n p w) }
{}

/// A run that does not record what the script performs comes to the same, but for that.
pub fn quiet_runs<S, C, F, J, R, O, A>()
    ensures { (l : Language S C F) (kept : O → Bool) (jobs : J → Part S C F J R O R) (n : ℕ)
        (p : Part S C F J R O A) (w : RunState S O)
        → run l (quietly kept) jobs n p (without_operations w)
        ≡ with_state without_operations (run l (keeping kept) jobs n p w) }
{}

/// The runs of a part that matches another follow the runs of that other, whatever has been done before. T names the
/// pairs of jobs that match.
pub fn matching_parts_follow<S, C, F, J, R, O, A, T>()
    ensures { (l : Language S C F) (kept : O → Bool) (i j : T → J) (first second : J → Part S C F J R O R)
        → JobsMatch l.apply kept (ArePaired i j) first second
        → (credit rest n : ℕ) (v : RunState S O) (p q : Part S C F J R O A)
        → Matches l.apply kept (ArePaired i j) v.store credit rest p q
        → Follows kept (IsWithin kept) credit n (run l everything first n p v) (runs l kept second q v) }
{}

/// A part that matches another, with 64 steps to begin with, simulates it.
pub fn matching_parts_simulate<S, C, F, J, R, O, A, T>()
    ensures { (l : Language S C F) (kept : O → Bool) (i j : T → J) (first second : J → Part S C F J R O R)
        → JobsMatch l.apply kept (ArePaired i j) first second
        → (s : S) (p q : Part S C F J R O A) → Matches l.apply kept (ArePaired i j) s 64 0 p q
        → Simulates kept (λ n. run l everything first n p (nothing_done s))
        (λ n. run l (keeping kept) second n q (nothing_done s)) }
{}

/// A row matches itself, where its calls match themselves.
pub fn rows_match_themselves<S, C, E, F, K, J, R, O, A, T>()
    ensures { (apply : C → S → S) (kept : O → Bool) (i j : T → J) (call : K → J) (fault : E → F)
        → ((k : K) → ArePaired i j (call k) (call k))
        → (p : Row S C E K R A) (s : S) (credit : ℕ)
        → Matches apply kept (ArePaired i j) s credit credit (row call fault p) (row call fault p) }
{}

/// Where calls follow, so do rows: a row comes to the same with the second table of jobs as with the first, in no fewer
/// steps and at most 32 times as many, with the kept operations of the first as its hooks, and is spent with fewer or
/// where the first is. If besides, where the second is spent, output and hooks of the calls are prefixes of the output
/// and of the kept operations of the first, so are those of the rows.
pub fn rows_follow_calls<S, C, E, F, K, J, R, O, A>()
    ensures follows { (l : Language S C F) (kept : O → Bool) (call : K → J) (fault : E → F)
        (first second : J → Part S C F J R O R)
        → CallsFollow l kept IsAny call first second → (p : Row S C E K R A)
        → PartFollows l kept IsAny first second (row call fault p) }
    ensures within { (l : Language S C F) (kept : O → Bool) (call : K → J) (fault : E → F)
        (first second : J → Part S C F J R O R)
        → CallsFollow l kept (IsWithin kept) call first second → (p : Row S C E K R A)
        → PartFollows l kept (IsWithin kept) first second (row call fault p) }
{}

/// A row ends a run by no fault but those of its own type, that of a full output, and those of its calls: where these
/// are all among the faults that a T names, so is each fault that ends a run of the row.
pub fn rows_add_no_faults<S, C, E, F, K, J, R, O, A, T>()
    ensures { (l : Language S C F) (k : Recorded O) (jobs : J → Part S C F J R O R) (call : K → J) (fault : E → F)
        (faults : T → F) → IsOneOf faults l.full → ((e : E) → IsOneOf faults (fault e))
        → ((c : K) (n : ℕ) (w : RunState S O) → FailsAllowed (IsOneOf faults) (run l k jobs n (job (call c)) w))
        → (p : Row S C E K R A) (n : ℕ) (w : RunState S O)
        → FailsAllowed (IsOneOf faults) (run l k jobs n (row call fault p) w) }
{}

/// A run emits no more operations by hooks than it takes steps, where its part and the parts of its jobs pay by steps
/// for what they emit.
pub fn emitted_within_steps<S, C, F, J, R, O, A>()
    ensures { (l : Language S C F) (k : Recorded O) (jobs : J → Part S C F J R O R)
        → ((j : J) → Pays (λ end. 0) (jobs j) 0) → (n : ℕ) (p : Part S C F J R O A) (s : S) → Pays (λ end. 0) p 0
        → length (state_of (run l k jobs n p (nothing_done s))).hooks
        ≤ steps_taken n (run l k jobs n p (nothing_done s)) }
{}

/// What a run performs are operations that a T names, where its part performs such alone and begins such jobs alone
/// as an I names, and the parts of these do the same.
pub fn performed_is_named<S, C, F, J, R, O, A, T, I>()
    ensures { (l : Language S C F) (k : Recorded O) (jobs : J → Part S C F J R O R) (named : T → O) (job_of : I → J)
        → ((j : J) → IsOneOf job_of j → Tells (IsOneOf named) (IsOneOf job_of) (jobs j))
        → (n : ℕ) (p : Part S C F J R O A) (s : S) → Tells (IsOneOf named) (IsOneOf job_of) p
        → All (IsOneOf named) (state_of (run l k jobs n p (nothing_done s))).operations }
{}
