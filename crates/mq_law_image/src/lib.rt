//! What recovery gives of a log is a well-formed image.
#![tactic(auto)]

ghost use Rattle.std.specs.Prelude.{◌≡◌, ℕ, ◌+◌, ◌^◌, ◌<◌, ◌≤◌, Bool, false, true, List, [], ◌∷◌, ◌++◌, length, Option, None, Some, Ok};
ghost use Rattle.std.specs.List.{AllByRecursion};
ghost use Rattle.mq_frame.specs.Reading.{IsBytes};
ghost use Rattle.mq_message.specs.declared.message.Dest.{Dest};
ghost use Rattle.mq_message.specs.declared.message.Ident.{Ident};
ghost use Rattle.mq_message.specs.declared.message.Md.{Md};
ghost use Rattle.mq_message.specs.declared.message.Message.{Message};
ghost use Rattle.mq_base.specs.Name.{IsName};
ghost use Rattle.mq_objects.specs.declared.change.ObjectChange.{ObjectChange};
ghost use Rattle.mq_objects.specs.declared.change.ObjectChange.TheVariants as changes;
ghost use Rattle.mq_objects.specs.declared.command.Command.{Command};
ghost use Rattle.mq_objects.specs.declared.command.Subject.{Subject};
ghost use Rattle.mq_objects.specs.declared.object.AliasQueue.{AliasQueue};
ghost use Rattle.mq_objects.specs.declared.object.Channel.{Channel};
ghost use Rattle.mq_objects.specs.declared.object.LocalQueue.{LocalQueue};
ghost use Rattle.mq_objects.specs.declared.object.ManagerAttributes.{ManagerAttributes};
ghost use Rattle.mq_objects.specs.declared.object.Object.TheVariants as objects;
ghost use Rattle.mq_objects.specs.declared.object.Process.{Process};
ghost use Rattle.mq_objects.specs.declared.object.RemoteQueue.{RemoteQueue};
ghost use Rattle.mq_calls.specs.declared.records.LogRecord.{LogRecord};
ghost use Rattle.mq_calls.specs.declared.records.LogRecord.TheVariants as records;
ghost use Rattle.mq_objects.specs.Attributes.{manager_attributes};
ghost use Rattle.mq_objects.specs.Defaults.{new_manager};
ghost use Rattle.mq_objects.specs.Settings.{set_all_manager};
ghost use Rattle.mq_law_log.specs.from_sc_apply.Planned.{defined_object};
ghost use Rattle.mq_sc_lex.specs.declared.token.Line.{Line};
ghost use Rattle.mq_sc_lex.specs.declared.token.TokenKind.TheVariants as tokens;
ghost use Rattle.mq_sc_lex.specs.Commands.{commands_of};
ghost use Rattle.mq_sc_keys.specs.declared.keys.Key.TheVariants as words;
ghost use Rattle.mq_sc_keys.specs.declared.verbs.Verb.TheVariants as verbs;
ghost use Rattle.mq_sc_keys.specs.declared.verbs.Noun.{Noun};
ghost use Rattle.mq_sc_keys.specs.declared.attributes.Kind.{Kind};
ghost use Rattle.mq_sc_keys.specs.declared.attributes.Kind.TheVariants as kinds;
ghost use Rattle.mq_sc_keys.specs.Verbs.{object_text};
ghost use Rattle.mq_sc_parse.specs.declared.command.Command.TheVariants as parsed;
ghost use Rattle.mq_sc_parse.specs.Parsing.{parse_of, subject_of};
ghost use Rattle.mq_sc_grammar.specs.Spelling.{IsNamed};
ghost use Rattle.mq_sc_grammar.specs.Commands.{AreSingle, Says};
ghost use Rattle.mq_law_log.specs.from_record.{Operation};
ghost use Rattle.mq_law_log.specs.from_record.OperationVariants.{Delete, Set};
ghost use Rattle.mq_law_log.specs.from_record.Records.{IsRecord, operation_of, record_bytes};
ghost use Rattle.mq_sync.specs.Settlement.{sender_or};
ghost use Rattle.mq_sync.specs.declared.unit.Unit.{Unit as Luw};
ghost use Rattle.mq_calls.specs.Reads.{sender_data};
ghost use Rattle.mq_calls.specs.declared.answers.Hconn.{Hconn};
ghost use Rattle.mq_calls.specs.declared.answers.Hobj.{Hobj};
ghost use Rattle.mq_calls.specs.declared.answers.Open.{Open};
ghost use Rattle.mq_calls.specs.declared.answers.Appl.{Appl};
ghost use Rattle.mq_calls.specs.declared.answers.Get.{Get};
ghost use Rattle.mq_calls.specs.declared.agents.Note.{Note};
ghost use Rattle.mq_calls.specs.declared.choices.Choice.{Choice};
ghost use Rattle.mq_calls.specs.declared.commands.RestartFault.{RestartFault};
ghost use Rattle.mq_calls.specs.State.{Change, Given, Noted, Plain};
ghost use Rattle.mq_calls.specs.declared.state.SenderSide.{SenderSide};
ghost use Rattle.mq_calls.specs.State.Running.{Down, Up};
ghost use Rattle.mq_calls.specs.Changes.{apply};
ghost use Rattle.mq_calls.specs.Counts.{AreAtMost};
ghost use Rattle.mq_calls.specs.Sizes.{change_text};
ghost use Rattle.mq_calls.specs.Images.{begun, raised};
ghost use Rattle.mq_calls.specs.declared.image.Image.{Image};
ghost use Rattle.mq_calls.specs.declared.image.Shelf.{Shelf};
ghost use Rattle.mq_calls.specs.Steps.{Part, Step, after, do_part, freeze, note_of};
ghost use Rattle.mq_law_log.specs.from_spec_manager.Stops.{advance_clock, cut, failed, first_start, grown, next_started, redone_if, restarted, started_need, started_record, stop};
ghost use Rattle.mq_law_log.specs.from_spec_manager.Commands.{command};
ghost use Rattle.mq_law_log.specs.from_spec_manager.Handles.{mqclose, mqconn, mqopen};
ghost use Rattle.mq_law_log.specs.from_spec_manager.Put.{mqput, mqput1};
ghost use Rattle.mq_law_log.specs.from_spec_manager.Get.{mqget};
ghost use Rattle.mq_law_log.specs.from_spec_manager.Units.{mqback, mqcmit, mqdisc};
ghost use Rattle.mq_law_log.specs.from_spec_manager.Triggers.{trigger_turn};
ghost use Rattle.mq_law_log.specs.from_spec_manager.Agents.{discard, expire, harden, hold_batch, leave, move_row, prepare, receive, release_batch, seize, set_bound};
ghost use Rattle.mq_calls.specs.Recovery.{AreKnown, IsImage};
ghost use Rattle.mq_law_log.specs.from_spec_log.Applies.{Start, is_in_bounds};
ghost use Rattle.mq_law_log.specs.from_spec_log.Applies.Start.{First, Later};
ghost use Rattle.mq_law_log.specs.from_spec_log.Bodies.{image, record_of};
ghost use Rattle.mq_law_log.specs.from_spec_log.Records.{doing};
ghost use Rattle.mq_law_log.specs.from_spec_log.Texts.{change_in, gives_all};
ghost use Rattle.mq_law_log.specs.Keeps.{Keeps};
ghost use Rattle.mq_law_log.specs.Restarts.{IsGivenIn, IsHarmless};
ghost use Rattle.mq_law_log.specs.from_law_manager.Facts.{AreNamed, IsFrozen, IsSound, Mem};
ghost use Rattle.mq_law_image.specs.Bounds.{AreSessionsAtMost, HaveArrived, IsBounded, new_session, noted_growth, part_growth, restart_growth, session_of, step_growth};
ghost use Rattle.mq_law_image.specs.Laid.{AreWritten, CanDefine, IsSubject, Written, alter_bits, clauses_of, define_bits, settings_of, text_of};
ghost use Rattle.mq_law_image.specs.Tells.{Tells, TellsDown};
ghost use Rattle.mq_law_image.specs.Values.{AreObjectTexts, IsAliasText, IsChangeText, IsCommandText, IsChannelText, IsLocalText, IsMade, IsManagerText, IsProcessText, IsReadable, IsRemoteText, MakesText, StepMakes};

/// What recovery gives of a log is an image, and the log knew the idents of its own manager in it.
pub fn recovery_gives_an_image()
    ensures { (g : Given) (start : Start) (bodies : List (List ℕ)) (i : Image) → image g start bodies ≡ Ok i → AllByRecursion IsBytes bodies → IsImage i × AreKnown g.number i }
{}

/// A first start has what its log tells, with its own Started record.
pub fn a_first_start_has_what_its_log_tells()
    ensures { (g : Given) (start : Start) (bodies : List (List ℕ)) (next : List ℕ) (i : Image) (long moment : ℕ) → image g start bodies ≡ Ok i → AllByRecursion IsBytes bodies
        → record_of next ≡ Some (started_record g (i.incarnation + 1)) → is_in_bounds start (started_record g (i.incarnation + 1)) ≡ true → Tells start (bodies ++ next ∷ []) (first_start g i long moment) }
{}

/// What a log tells of its manager: behind a stopped write, kept or not, a stop, and the Started records of restarts that were
/// stopped; and a restart begins with the image that it reads, in the incarnation of its own Started record. A restart that fails,
/// a cut that is armed and a clock that moves leave what it tells.
pub fn a_restart_has_what_its_log_tells()
    ensures lost { (start : Start) (bodies : List (List ℕ)) (noted : Option Noted) (left : ℕ) (p : Plain) → Tells start bodies p → TellsDown start false 0 noted bodies (freeze noted left p) }
    ensures found { (start : Start) (first : List ℕ) (bodies : List (List ℕ)) (next : List ℕ) (r : LogRecord) (part : Part) (left : ℕ) (p : Plain) → Tells start (first ∷ bodies) p → part.forced ≡ Some r
        → record_of next ≡ Some r → is_in_bounds start r ≡ true → IsHarmless part p → IsGivenIn part.forced p → TellsDown start true 0 (note_of part part.forced) (first ∷ bodies ++ next ∷ []) (freeze (note_of part part.forced) left p) }
    ensures stops { (start : Start) (bodies : List (List ℕ)) (p : Plain) → p.running ≡ Up → Tells start bodies p → TellsDown start false 0 None bodies (stop p).next }
    ensures starts { (start : Start) (first : List ℕ) (bodies : List (List ℕ)) (next : List ℕ) (kept : Bool) (started : ℕ) (noted : Option Noted) (p : Plain) → TellsDown start kept started noted (first ∷ bodies) p
        → record_of next ≡ Some (next_started started (redone_if kept noted p)) → is_in_bounds start (next_started started (redone_if kept noted p)) ≡ true → TellsDown start kept (started + 1) noted (first ∷ bodies ++ next ∷ []) p }
    ensures comes_up { (start : Start) (first : List ℕ) (bodies : List (List ℕ)) (next : List ℕ) (kept : Bool) (started : ℕ) (noted : Option Noted) (p : Plain) → TellsDown start kept started noted (first ∷ bodies) p
        → record_of next ≡ Some (next_started started (redone_if kept noted p)) → is_in_bounds start (next_started started (redone_if kept noted p)) ≡ true → Tells start (first ∷ bodies ++ next ∷ []) (restarted kept started noted p) }
    ensures begins { (start : Start) (bodies : List (List ℕ)) (kept : Bool) (started : ℕ) (noted : Option Noted) (p : Plain) (i : Image) → TellsDown start kept started noted bodies p → image p.given start bodies ≡ Ok i
        → (begun p.given (raised 0 i) (grown started (redone_if kept noted p)) p.moment ≡ restarted kept started noted p) × (started_record p.given (i.incarnation + 1) ≡ next_started started (redone_if kept noted p)) }
    ensures is_read { (g : Given) (incarnation : ℕ) → g.number < 256 → IsName 48 g.name → incarnation < 2 ^ 64 → record_of (record_bytes (started_record g incarnation)) ≡ Some (started_record g incarnation) }
    ensures fails { (start : Start) (bodies : List (List ℕ)) (kept : Bool) (started : ℕ) (noted : Option Noted) (fault : RestartFault) (in_write : Bool) (left : ℕ) (note : Option Noted) (starts : ℕ) (p : Plain)
        → TellsDown start kept started noted bodies p → TellsDown start kept started noted bodies (failed fault in_write left note starts p).next }
    ensures cuts { (start : Start) (bodies : List (List ℕ)) (kept : Bool) (started : ℕ) (noted : Option Noted) (k : ℕ) (p : Plain) → TellsDown start kept started noted bodies p → TellsDown start kept started noted bodies (cut k p) }
    ensures clock { (start : Start) (bodies : List (List ℕ)) (kept : Bool) (started : ℕ) (noted : Option Noted) (by : ℕ) (p : Plain) → TellsDown start kept started noted bodies p → TellsDown start kept started noted bodies (advance_clock by p) }
    ensures later { (g : Given) (bodies : List (List ℕ)) (i : Image) → image g First bodies ≡ Ok i → image g Later bodies ≡ Ok i }
{}

/// Each counter of a manager rises by no more than what is done to it: so where a run is short enough, none comes near the end
/// of its 64 bits (`AreLow` of mq_calls), and the Started record of each restart is within the bounds that a reader asks.
pub fn counters_rise_by_what_is_done()
    ensures begins { (most : ℕ) (given : Given) (image : Image) (long moment : ℕ) → image.incarnation + 1 ≤ most → long + started_need given ≤ most → ((s : Shelf) → Mem s image.shelves → length s.rows ≤ most) → IsBounded most (first_start given image long moment) }
    ensures parts { (most : ℕ) (part : Part) (p : Plain) → IsBounded most p → IsBounded (most + part_growth part) (do_part part p) }
    ensures stops { (most : ℕ) (p : Plain) → IsBounded most p → IsBounded most (stop p).next }
    ensures restarts { (most : ℕ) (kept : Bool) (started starts : ℕ) (noted : Option Noted) (p : Plain) → p.running ≡ Down noted starts → started ≤ starts → HaveArrived p → IsBounded most p → IsBounded (most + restart_growth kept started noted p) (restarted kept started noted p) }
    ensures fails { (most : ℕ) (fault : RestartFault) (in_write : Bool) (left : ℕ) (noted : Option Noted) (starts : ℕ) (p : Plain) → p.running ≡ Down noted starts → IsBounded most p → IsBounded (most + 1) (failed fault in_write left noted starts p).next }
    ensures cuts { (most k : ℕ) (p : Plain) → IsBounded most p → IsBounded most (cut k p) }
    ensures clock { (most by : ℕ) (p : Plain) → IsBounded most p → IsBounded most (advance_clock by p) }
    ensures within { (most : ℕ) (kept : Bool) (started starts : ℕ) (noted : Option Noted) (p : Plain) → p.running ≡ Down noted starts → started ≤ starts → IsBounded most p → most + noted_growth kept noted + 1 < 2 ^ 61 → is_in_bounds Later (next_started started (redone_if kept noted p)) ≡ true }
    ensures at_most { (most : ℕ) (p : Plain) → AreNamed p.queues → IsBounded most p → AreAtMost most p }
    ensures arrived { (p : Plain) → IsSound p → HaveArrived p }
    ensures rests { (p : Plain) → IsFrozen p → HaveArrived p }
    ensures arrives { (c : Change) (p : Plain) → HaveArrived p → HaveArrived (apply c p) }
{}

/// And so with each call, however it ends.
pub fn calls_raise_counters_by_what_they_do<F, T>()
    ensures { (most : ℕ) (s : Step F T) (choice : Choice) (p : Plain) → IsBounded most p → IsBounded (most + step_growth s) (after s choice p).next }
{}

/// The text that is written for a DELETE is read as that change; and a record of a change whose text is read is read from its bytes.
pub fn texts_of_changes_are_read()
    ensures deletes { (s : Subject) → IsSubject s → change_in Delete (change_text (changes.Delete s)) ≡ Some (changes.Delete s) }
    ensures records { (change : ObjectChange) → length (change_text change) < 2 ^ 32 → change_in (operation_of change) (change_text change) ≡ Some change → record_of (record_bytes (records.Objects change)) ≡ Some (records.Objects change) }
{}

/// An ALTER QMGR, or a DEFINE, that is laid out of clauses which give settings is read as the change that these make.
pub fn texts_that_give_attributes_are_read()
    ensures alters { (w : Written) (ws : List Written) → AreWritten verbs.Alter kinds.Manager (w ∷ ws) → AreSingle (clauses_of (w ∷ ws)) → (Says words.Force (clauses_of (w ∷ ws)) → ⊥)
        → gives_all (settings_of (w ∷ ws)) (manager_attributes new_manager) ≡ true → change_in Set (text_of (alter_bits (w ∷ ws))) ≡ Some (changes.SetManager (set_all_manager (settings_of (w ∷ ws)) new_manager)) }
    ensures defines { (s : Subject) (noun : Noun) (kind : Kind) (width b : ℕ) (bs : List ℕ) (ws : List Written) → IsName width (b ∷ bs) → subject_of noun (b ∷ bs) ≡ Some s → IsNamed noun (b ∷ bs) (tokens.Open ∷ tokens.Quoted (b ∷ bs) ∷ tokens.Close ∷ []) → CanDefine s noun kind ws
        → change_in Set (text_of (define_bits (object_text noun) (b ∷ bs) ws)) ≡ Some (changes.Set (defined_object s (settings_of ws))) }
{}

/// The text that is written for a manager's attributes, or for an object, where its values are such as a command gives, is read as
/// that change: with what is kept without effect.
pub fn texts_of_objects_are_read()
    ensures managers { (m : ManagerAttributes) → IsManagerText m → change_in Set (change_text (changes.SetManager m)) ≡ Some (changes.SetManager m) }
    ensures aliases { (q : AliasQueue) → IsAliasText q → change_in Set (change_text (changes.Set (objects.Alias q))) ≡ Some (changes.Set (objects.Alias q)) }
    ensures remotes { (q : RemoteQueue) → IsRemoteText q → change_in Set (change_text (changes.Set (objects.Remote q))) ≡ Some (changes.Set (objects.Remote q)) }
    ensures processes { (q : Process) → IsProcessText q → change_in Set (change_text (changes.Set (objects.Process q))) ≡ Some (changes.Set (objects.Process q)) }
    ensures channels { (c : Channel) → IsChannelText c → change_in Set (change_text (changes.Set (objects.Channel c))) ≡ Some (changes.Set (objects.Channel c)) }
    ensures locals { (q : LocalQueue) → IsLocalText q → change_in Set (change_text (changes.Set (objects.Local q))) ≡ Some (changes.Set (objects.Local q)) }
{}

/// So each record whose fields fit is read from its bytes.
pub fn records_are_read_from_their_bytes()
    ensures { (r : LogRecord) → IsReadable r → record_of (record_bytes r) ≡ Some r }
{}

/// What a log says of objects has values such as a command gives, and so have the definitions of its image: these hold of each
/// manager of which a log tells.
pub fn a_log_has_values_that_commands_give()
    ensures texts { (operation : Operation) (text : List ℕ) (change : ObjectChange) → change_in operation text ≡ Some change → IsChangeText change }
    ensures images { (g : Given) (start : Start) (bodies : List (List ℕ)) (i : Image) → image g start bodies ≡ Ok i → AllByRecursion IsBytes bodies → AreObjectTexts i.definitions }
    ensures parts { (part : Part) (p : Plain) → Keeps part p → IsMade part.forced → AreObjectTexts p.definitions → AreObjectTexts (do_part part p).definitions }
{}

/// A command that a line of a text is gives such values, and a manager whose objects have them writes such a change for it. So each
/// record whose fields fit is read from its bytes.
pub fn what_commands_write_is_read()
    ensures lines { (text : List ℕ) (lines : List Line) (line : Line) (c : Command) → commands_of text ≡ Ok lines → Mem line lines → parse_of line ≡ Ok (parsed.Objects c) → IsCommandText c }
    ensures writes { (c : Command) (p : Plain) → IsCommandText c → AreObjectTexts p.definitions → StepMakes (command c p) }
    ensures reads { (r : LogRecord) → IsRecord r → MakesText r → record_of (record_bytes r) ≡ Some r }
{}

/// A sender's session rises no further than the Session records of its manager say, so where these count one by one no record of
/// theirs comes to the bound that a reader asks.
pub fn sessions_rise_by_their_records()
    ensures begins { (g : Given) (bodies : List (List ℕ)) (i : Image) → image g First bodies ≡ Ok i → AreSessionsAtMost (2 ^ 60) i.senders }
    ensures records { (most : ℕ) (r : LogRecord) (i : Image) → new_session r ≤ most → AreSessionsAtMost most i.senders → AreSessionsAtMost most (doing r i).senders }
    ensures parts { (most : ℕ) (part : Part) (p : Plain) → Keeps part p → session_of part.forced ≤ most → AreSessionsAtMost most p.channels.senders → AreSessionsAtMost most (do_part part p).channels.senders }
    ensures found { (most : ℕ) (part : Part) (r : LogRecord) (left : ℕ) (p : Plain) → part.forced ≡ Some r → IsHarmless part p → new_session r ≤ most → AreSessionsAtMost most p.channels.senders → AreSessionsAtMost most (redone_if true (note_of part part.forced) (freeze (note_of part part.forced) left p)).channels.senders }
    ensures more { (most higher : ℕ) (sides : List SenderSide) → most ≤ higher → AreSessionsAtMost most sides → AreSessionsAtMost higher sides }
    ensures next { (most : ℕ) (channel : List ℕ) (p : Plain) → AreSessionsAtMost most p.channels.senders → (sender_or (sender_data channel p)).session + 1 ≤ most + 1 }
    ensures within { (most session : ℕ) (channel partner : List ℕ) → session ≤ most → most < 2 ^ 61 → is_in_bounds Later (records.Session channel partner session) ≡ true }
{}

/// No call but a command on objects writes a change of objects: of what the others write only the fields have to fit to be read.
pub fn no_other_call_writes_a_change_of_objects()
    ensures connects { (qmgr : List ℕ) (appl : Appl) (p : Plain) → StepMakes (mqconn qmgr appl p) }
    ensures opens { (hc : Hconn) (name qmgr : List ℕ) (how : Open) (p : Plain) → StepMakes (mqopen hc name qmgr how p) }
    ensures closes { (hc : Hconn) (ho : Hobj) (p : Plain) → StepMakes (mqclose hc ho p) }
    ensures puts { (hc : Hconn) (ho : Hobj) (md : Md) (body : List ℕ) (sync : Bool) (p : Plain) → StepMakes (mqput hc ho md body sync p) }
    ensures puts_once { (hc : Hconn) (name qmgr : List ℕ) (md : Md) (body : List ℕ) (sync : Bool) (p : Plain) → StepMakes (mqput1 hc name qmgr md body sync p) }
    ensures gets { (hc : Hconn) (ho : Hobj) (get : Get) (until : Option ℕ) (p : Plain) → StepMakes (mqget hc ho get until p) }
    ensures commits { (hc : Hconn) (p : Plain) → StepMakes (mqcmit hc p) }
    ensures backs_out { (hc : Hconn) (p : Plain) → StepMakes (mqback hc p) }
    ensures disconnects { (hc : Hconn) (p : Plain) → StepMakes (mqdisc hc p) }
    ensures triggers { (p : Plain) → StepMakes (trigger_turn p) }
    ensures seizes { (channel : List ℕ) (p : Plain) → StepMakes (seize channel p) }
    ensures leaves { (channel : List ℕ) (p : Plain) → StepMakes (leave channel p) }
    ensures binds { (channel : List ℕ) (bound : Bool) (p : Plain) → StepMakes (set_bound channel bound p) }
    ensures expires { (channel : List ℕ) (p : Plain) → StepMakes (expire channel p) }
    ensures holds { (channel : List ℕ) (unit : Luw) (most : ℕ) (p : Plain) → StepMakes (hold_batch channel unit most p) }
    ensures releases { (channel : List ℕ) (p : Plain) → StepMakes (release_batch channel p) }
    ensures prepares { (channel : List ℕ) (last : ℕ) (p : Plain) → StepMakes (prepare channel last p) }
    ensures hardens { (channel : List ℕ) (note : Note) (p : Plain) → StepMakes (harden channel note p) }
    ensures receives { (channel : List ℕ) (unit : Luw) (last : ℕ) (batch : List Message) (p : Plain) → StepMakes (receive channel unit last batch p) }
    ensures moves { (from : List ℕ) (ident : Ident) (to : Dest) (bare : Bool) (p : Plain) → StepMakes (move_row from ident to bare p) }
    ensures discards { (queue : List ℕ) (ident : Ident) (p : Plain) → StepMakes (discard queue ident p) }
{}
