//! Laws of the carried documents: each is a function that does nothing, and is proved of all texts.
//!
//! A document is carried where its text stands in the relation of `specs/Grammar.antt` to a tree; the events of
//! a tree are those of `specs/Trees.antt`; what `Parser::next_token` gives is `next` of `specs/Stream.antt`.

ghost use Rattle.std.specs.Prelude.{◌≡◌, ◌≤◌, ◌++◌, ◌⊎◌, ℕ, List, [], Option, Ok, Err, ◌∷◌, false, length};
ghost use Rattle.yaml_scan.specs.Bytes.{line_feed};
ghost use Rattle.yaml_scan.specs.Lines.{lines_of};
ghost use Rattle.yaml_small.specs.declared.event.Event.{Event};
ghost use Rattle.yaml_small.specs.declared.event.Event.TheVariants.{StreamEnd};
ghost use Rattle.yaml_small.specs.declared.state.Mode.TheVariants.{Ended};
ghost use Rattle.yaml_small.specs.Trees.{Tree, stream_emitted, ends_again};
ghost use Rattle.yaml_small.specs.Scalars.{Fault, NotCarried, TooDeep};
ghost use Rattle.yaml_small.specs.Grammar.{Carried, without_mark};
ghost use Rattle.yaml_small.specs.Stream.{State, top_of, start, next, Runs, Emits, Refuses, IsFinal, WouldBegin, ends_return};
ghost use Rattle.yaml_small.specs.Uncarried.{Uncarried};

/// The events of a carried document are emitted: those of its tree, and then the stream's end, as often as it is
/// asked for.
pub fn carried_is_emitted()
    ensures { (text : List ℕ) (o : Option Tree) (n : ℕ) → Carried text o → Emits text (stream_emitted o (ends_again n)) }
{}

/// A text whose events are emitted to the stream's end is a carried document: they are those of the document's
/// tree, and then the stream's end again.
pub fn emitted_is_carried()
    ensures { (text : List ℕ) (es : List Event) → Emits text es
        → (o : Option Tree) × Carried text o × (n : ℕ) × (es ≡ stream_emitted o (ends_again n)) }
{}

/// A text that emits a tree's events, with the stream's end once, is a carried document for that tree.
pub fn tree_is_carried()
    ensures { (text : List ℕ) (o : Option Tree) (z : State) → Runs (start text) (stream_emitted o []) z → Carried text o }
{}

/// A text is a carried document for one tree at most.
pub fn one_document()
    ensures { (text : List ℕ) (o p : Option Tree) → Carried text o → Carried text p → o ≡ p }
{}

/// The events of a stream have one tree.
pub fn one_tree()
    ensures { (o p : Option Tree) (es fs : List Event) → stream_emitted o es ≡ stream_emitted p fs → (o ≡ p) × (es ≡ fs) }
{}

/// The stream's end is emitted only where the stream has ended.
pub fn end_is_last()
    ensures { (s m : State) → next s ≡ Ok (StreamEnd, m) → m.mode ≡ Ended }
{}

/// A text that is refused is not carried.
pub fn refused_is_not_carried()
    ensures { (text : List ℕ) (fault : Fault) (o : Option Tree) → Refuses text fault → Carried text o → ⊥ }
{}

/// A text that is refused before its end is refused for good: no carried document has its lines as the first
/// ones. Only where a flow is open at the text's end could more lines help.
pub fn refused_for_good()
    ensures { (text longer : List ℕ) (more : List (List ℕ)) (fault : Fault) (o : Option Tree) → Refuses text fault
        → IsFinal fault
        → lines_of (without_mark longer) ≡ lines_of (without_mark text) ++ more
        → Carried longer o
        → ⊥ }
{}

/// No carried document begins with a text that is refused before its end and a line feed.
pub fn no_document_begins_with_a_refused_text()
    ensures { (text rest : List ℕ) (fault : Fault) (o : Option Tree) → Refuses text fault
        → IsFinal fault
        → ends_return text ≡ false
        → Carried (text ++ (line_feed ∷ rest)) o
        → ⊥ }
{}

/// The events of each text are emitted to the stream's end, or the text is refused.
pub fn each_text_is_emitted_or_refused()
    ensures { (text : List ℕ) → ((es : List Event) × Emits text es) ⊎ ((fault : Fault) × Refuses text fault) }
{}

/// A text that is no carried document is refused.
pub fn not_carried_is_refused()
    ensures { (text : List ℕ) → ((o : Option Tree) → Carried text o → ⊥) → (fault : Fault) × Refuses text fault }
{}

/// At no time are more than 64 lists and maps open.
pub fn depth_is_bounded()
    ensures { (text : List ℕ) (events : List Event) (s : State) → Runs (start text) events s → length s.frames ≤ 64 }
{}

/// A text is refused as too deep only where 64 lists and maps are open, and the next step would begin one more.
pub fn too_deep_is_the_65th()
    ensures { (text : List ℕ) (events : List Event) (s : State) → Runs (start text) events s
        → next s ≡ Err TooDeep
        → (length s.frames ≡ 64) × WouldBegin s }
{}

/// A text is refused as not carried only where one of the forms stands that are listed as not carried.
pub fn not_carried_is_a_listed_form()
    ensures { (s : State) → next s ≡ Err NotCarried → Uncarried s.mode (top_of s.frames) s.at }
{}
