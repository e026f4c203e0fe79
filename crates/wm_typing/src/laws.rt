//! Laws of the definitions. Each law is the contract of an empty function.

ghost use Rattle.std.specs.Prelude.{◌≡◌, ◌+◌, ◌≤◌, ◌↔◌, ℕ, suc, List, [], ◌∷◌, ◌++◌, Ok, Err, Option, length};
ghost use Rattle.std.specs.Prelude.{replicate};
ghost use Rattle.std.specs.List.{AllByRecursion};
ghost use Rattle.wm_syntax.specs.Instructions.{Instructions};
ghost use Rattle.wm_syntax.specs.declared.instructions.Op.{Op};
ghost use Rattle.wm_syntax.specs.declared.instructions.Op.TheVariants as op;
ghost use Rattle.wm_syntax.specs.declared.types.ValType.{ValType};
ghost use Rattle.wm_syntax.specs.declared.types.ValType.TheVariants.{I32};
ghost use Rattle.wm_syntax.specs.declared.why.Why.{Why};
ghost use Rattle.wm_syntax.specs.Runs.{run_count};
ghost use Rattle.wm_typing.specs.TypedBodies.{HasBodyOps, HaveTyping, IsTypedBody};
ghost use Rattle.wm_typing.specs.inner.Checking.{BodyAfter};
ghost use Rattle.wm_typing.specs.Bodies.{Body};
ghost use Rattle.wm_typing.specs.Contexts.{body_context, result_of};
ghost use Rattle.wm_typing.specs.exact.Folds.{body_after_ops, body_with_locals};
ghost use Rattle.wm_syntax.specs.Instructions.{endings, openings};
ghost use Rattle.wm_typing.specs.Nesting.{nesting};
ghost use Rattle.wm_typing.specs.OpenLists.{Head, IsOpen, IsSoFar, OpenCan, Place, SeenCan, Work, within};
ghost use Rattle.wm_typing.specs.Typing.{Context};

/// Ops one after another are taken if and only if they have a typing in their open lists. `BodyAfter` then
/// holds. Each type must have at most one result.
pub fn ops_in_turn()
    ensures taken { (c : Context) (x : ℕ) (locals : List ValType) (ops : List Op) (b : Body)
        → AllByRecursion (λ f. length f.results ≤ 1) c.types
        → body_after_ops c (Ok (body_with_locals c x locals)) ops ≡ Ok b → BodyAfter c x locals ops b }
    ensures refused { (c : Context) (x : ℕ) (locals : List ValType) (ops : List Op) (why : Why)
        → AllByRecursion (λ f. length f.results ≤ 1) c.types
        → body_after_ops c (Ok (body_with_locals c x locals)) ops ≡ Err why
        → HaveTyping (body_context c x locals) ops → ⊥ }
{}

/// Consequences of `BodyAfter`: a typing of the ops, the end of the body, the number of open frames, and
/// `controls`.
pub fn after_ops()
    ensures typed { (c : Context) (x : ℕ) (locals : List ValType) (ops : List Op) (b : Body)
        → BodyAfter c x locals ops b
        → HaveTyping (body_context c x locals) ops }
    ensures ended { (c : Context) (x : ℕ) (locals : List ValType) (ops : List Op) (b : Body)
        → BodyAfter c x locals ops b
        → (b.state.stacks.frames ≡ []) ↔ IsTypedBody (body_context c x locals) ops }
    ensures nested { (c : Context) (x : ℕ) (locals : List ValType) (ops : List Op) (b : Body)
        → BodyAfter c x locals ops b
        → length b.state.stacks.frames + endings ops ≡ openings ops + 1 }
    ensures controls { (c : Context) (x : ℕ) (locals : List ValType) (ops : List Op) (b : Body)
        → BodyAfter c x locals ops b
        → (body : Instructions) → HasBodyOps body ops → b.stats.controls ≡ nesting body + 1 }
{}

/// Each front of a typed body's ops has a typing in its open lists.
pub fn fronts_of_typed_bodies()
    ensures { (c : Context) (x : ℕ) (locals : List ValType) (front back : List Op)
        → IsTypedBody (body_context c x locals) (front ++ back)
        → HaveTyping (body_context c x locals) front }
{}

/// Ops outside the labels of a br_table begin a typed body if they have a typing in the lists that they leave
/// open. Ops that end among these labels may begin none: the default takes operands that were not checked.
pub fn open_ops_begin_a_body()
    ensures { (c : Context) (x : ℕ) (locals : List ValType) (hs : List Head) (ws : List Work) (ops : List Op)
        → IsOpen (result_of c x) hs ws ops → OpenCan (body_context c x locals) [] hs ws
        → (more : List Op) × IsTypedBody (body_context c x locals) (ops ++ more) }
{}

/// The op of a br_table has a typing if and only if an i32 can be on top of the innermost list. A label before
/// the default has one if and only if it and those before it exist and have one type. Core spec 3.3.5.
pub fn labels_of_a_table()
    ensures count { (c : Context) (hs : List Head) (ws : List Work) (ops : List Op) (n : ℕ)
        → IsOpen c.result hs ws ops
        → HaveTyping c (ops ++ op.BrTable n ∷ []) ↔ OpenCan c (I32 ∷ []) hs ws }
    ensures label { (c : Context) (n : ℕ) (seen : List ℕ) (hs : List Head) (ws : List Work) (ops : List Op)
        (l : ℕ)
        → IsSoFar c.result (within (suc n) seen hs ws) ops
        → HaveTyping c (ops ++ op.Label l ∷ []) ↔ (SeenCan hs (seen ++ l ∷ []) × OpenCan c (I32 ∷ []) hs ws) }
{}

/// Locals of one type add at most one run.
pub fn one_run_more()
    ensures { (locals : List ValType) (count : ℕ) (t : ValType)
        → run_count (locals ++ replicate count t) ≤ run_count locals + 1 }
{}

/// Some ops have at most one place: the lists that they leave open are unique.
pub fn one_place()
    ensures { (r : Option ValType) (p q : Place) (ops : List Op) → IsSoFar r p ops → IsSoFar r q ops → p ≡ q }
{}
