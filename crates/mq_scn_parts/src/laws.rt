//! The laws of lines with which parts begin and of steps, as functions with empty bodies whose contracts are the theorems.

ghost use Rattle.std.specs.Prelude.{◌≡◌, ◌⊎◌, ℕ, List, Ok, Err};
ghost use Rattle.mq_history.specs.declared.scenario.Scenario.{Scenario};
ghost use Rattle.mq_history.specs.declared.scenario.Step.{Step};
ghost use Rattle.mq_scn_lines.specs.declared.fault.LineFault.{LineFault};
ghost use Rattle.mq_scn_text.specs.declared.fault.ScenarioFault.{ScenarioFault};
ghost use Rattle.mq_scn_heading.specs.declared.heading.PartLine.{PartLine};
ghost use Rattle.mq_scn_heading.specs.declared.parts.Stage.{Stage};
ghost use Rattle.mq_scn_text.specs.declared.reading.Reading.{Reading};
ghost use Rattle.mq_scn_text.specs.Faults.{fault_at};
ghost use Rattle.mq_scn_text.specs.Reading.{part_added, part_line_read};
ghost use Rattle.mq_scn_heading.specs.Steps.{step_line};
ghost use Rattle.mq_scn_parts.specs.Heading.{IsPartLine, IsPartLineFault};
ghost use Rattle.mq_scn_parts.specs.Steps.{IsStepLine, IsStepFault};

/// The reader of texts goes on with what a line says exactly where the line is one with which a part begins, there is room
/// for the part and it may stand there.
pub fn a_part_begins_where_it_is_written()
    ensures found { (number : ℕ) (line : List ℕ) (r t : Reading) → part_line_read number line r ≡ Ok t → (p : Stage × PartLine) × IsPartLine r.scenario r.stage line p × (t ≡ part_added number p.1 (record r { stage = p.0 })) }
    ensures read { (number : ℕ) (line : List ℕ) (r : Reading) (p : Stage × PartLine) → IsPartLine r.scenario r.stage line p → part_line_read number line r ≡ Ok (part_added number p.1 (record r { stage = p.0 })) }
{}

/// It answers a fault exactly where it is the line's: one that a part of it has, where none that a part has stands before it.
pub fn a_part_fault_is_told()
    ensures found { (number : ℕ) (line : List ℕ) (r : Reading) (fault : ScenarioFault) → part_line_read number line r ≡ Err fault → (f : LineFault) × IsPartLineFault r.scenario r.stage line f × (fault ≡ fault_at number f) }
    ensures read { (number : ℕ) (line : List ℕ) (r : Reading) (f : LineFault) → IsPartLineFault r.scenario r.stage line f → part_line_read number line r ≡ Err (fault_at number f) }
{}

/// Each text is such a line or has a fault, never both, and says one thing and has one fault at most that is told.
pub fn a_text_begins_a_part_or_has_a_fault()
    ensures either { (s : Scenario) (stage : Stage) (text : List ℕ) → ((p : Stage × PartLine) × IsPartLine s stage text p) ⊎ ((f : LineFault) × IsPartLineFault s stage text f) }
    ensures never_both { (s : Scenario) (stage : Stage) (text : List ℕ) (p : Stage × PartLine) (f : LineFault) → IsPartLine s stage text p → IsPartLineFault s stage text f → ⊥ }
    ensures one_part { (s : Scenario) (stage : Stage) (text : List ℕ) (p q : Stage × PartLine) → IsPartLine s stage text p → IsPartLine s stage text q → p ≡ q }
    ensures one_fault { (s : Scenario) (stage : Stage) (text : List ℕ) (f g : LineFault) → IsPartLineFault s stage text f → IsPartLineFault s stage text g → f ≡ g }
{}

/// The reader of steps answers a step exactly where the text is this step.
pub fn a_step_is_read_where_it_is_written()
    ensures found { (s : Scenario) (text : List ℕ) (step : Step) → step_line s text ≡ Ok step → IsStepLine s text step }
    ensures read { (s : Scenario) (text : List ℕ) (step : Step) → IsStepLine s text step → step_line s text ≡ Ok step }
{}

/// It answers a fault exactly where it is the text's: one that a part of it has, where none that a part has stands before it.
pub fn a_step_fault_is_told()
    ensures found { (s : Scenario) (text : List ℕ) (f : LineFault) → step_line s text ≡ Err f → IsStepFault s text f }
    ensures read { (s : Scenario) (text : List ℕ) (f : LineFault) → IsStepFault s text f → step_line s text ≡ Err f }
{}

/// Each text is a step or has a fault, never both, and is one step and has one fault at most that is told.
pub fn a_text_is_a_step_or_has_a_fault()
    ensures either { (s : Scenario) (text : List ℕ) → ((step : Step) × IsStepLine s text step) ⊎ ((f : LineFault) × IsStepFault s text f) }
    ensures never_both { (s : Scenario) (text : List ℕ) (step : Step) (f : LineFault) → IsStepLine s text step → IsStepFault s text f → ⊥ }
    ensures one_step { (s : Scenario) (text : List ℕ) (step other : Step) → IsStepLine s text step → IsStepLine s text other → step ≡ other }
    ensures one_fault { (s : Scenario) (text : List ℕ) (f g : LineFault) → IsStepFault s text f → IsStepFault s text g → f ≡ g }
{}
