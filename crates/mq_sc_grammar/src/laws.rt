//! The laws of texts and lines, as functions with empty bodies whose contracts are the theorems.

ghost use Rattle.std.specs.Prelude.{◌≡◌, ◌⊎◌, ℕ, List, Ok, Err};
ghost use Rattle.mq_sc_lex.specs.declared.token.Line.{Line};
ghost use Rattle.mq_sc_lex.specs.declared.token.TokenKind.{TokenKind};
ghost use Rattle.mq_sc_lex.specs.declared.fault.LexFault.{LexFault};
ghost use Rattle.mq_sc_lex.specs.Commands.{commands_of};
ghost use Rattle.mq_sc_parse.specs.declared.command.Command.{Command};
ghost use Rattle.mq_sc_parse.specs.declared.fault.ScFault.{ScFault};
ghost use Rattle.mq_sc_parse.specs.Parsing.{parse_of};
ghost use Rattle.mq_sc_grammar.specs.Texts.{IsCommands};
ghost use Rattle.mq_sc_grammar.specs.TextFaults.{IsTextFault};
ghost use Rattle.mq_sc_grammar.specs.Spelling.{kinds_of};
ghost use Rattle.mq_sc_grammar.specs.Commands.{IsCommand};
ghost use Rattle.mq_sc_grammar.specs.Faults.{IsFault};

/// A text is that of one list of commands at most.
pub fn one_list_of_commands()
    ensures { (text : List ℕ) (lines others : List Line) → IsCommands text lines → IsCommands text others → lines ≡ others }
{}

/// The reader of texts answers a list of commands exactly where the text is that of these commands.
pub fn commands_are_those_of_the_text()
    ensures found { (text : List ℕ) (lines : List Line) → commands_of text ≡ Ok lines → IsCommands text lines }
    ensures read { (text : List ℕ) (lines : List Line) → IsCommands text lines → commands_of text ≡ Ok lines }
{}

/// The reader of texts answers a fault, other than that memory ran out, exactly where it is the text's.
pub fn a_text_fault_is_told()
    ensures found { (text : List ℕ) (fault : LexFault) → commands_of text ≡ Err fault → IsTextFault text fault }
    ensures read { (text : List ℕ) (fault : LexFault) → IsTextFault text fault → commands_of text ≡ Err fault }
{}

/// Each text is that of a list of commands or has a fault, never both, and has one fault at most.
pub fn a_text_has_commands_or_a_fault()
    ensures either { (text : List ℕ) → ((lines : List Line) × IsCommands text lines) ⊎ ((fault : LexFault) × IsTextFault text fault) }
    ensures never_both { (text : List ℕ) (lines : List Line) (fault : LexFault) → IsCommands text lines → IsTextFault text fault → ⊥ }
    ensures one_fault { (text : List ℕ) (fault other : LexFault) → IsTextFault text fault → IsTextFault text other → fault ≡ other }
{}

/// The tokens of a line are those of one command at most.
pub fn a_line_is_one_command()
    ensures { (kinds : List TokenKind) (command other : Command) → IsCommand kinds command → IsCommand kinds other → command ≡ other }
{}

/// The reader of lines answers a command exactly where the line's tokens are those of this command.
pub fn a_command_is_read_where_it_is_written()
    ensures found { (line : Line) (command : Command) → parse_of line ≡ Ok command → IsCommand (kinds_of line.tokens) command }
    ensures read { (line : Line) (command : Command) → IsCommand (kinds_of line.tokens) command → parse_of line ≡ Ok command }
{}

/// The reader of lines answers a fault, other than that memory ran out, exactly where it is the line's.
pub fn a_fault_is_told_where_it_stands()
    ensures found { (line : Line) (fault : ScFault) → parse_of line ≡ Err fault → IsFault line fault }
    ensures read { (line : Line) (fault : ScFault) → IsFault line fault → parse_of line ≡ Err fault }
{}

/// Each line is a command or has a fault, never both, and has one fault at most.
pub fn a_line_is_a_command_or_has_a_fault()
    ensures either { (line : Line) → ((command : Command) × IsCommand (kinds_of line.tokens) command) ⊎ ((fault : ScFault) × IsFault line fault) }
    ensures never_both { (line : Line) (command : Command) (fault : ScFault) → IsCommand (kinds_of line.tokens) command → IsFault line fault → ⊥ }
    ensures one_fault { (line : Line) (fault other : ScFault) → IsFault line fault → IsFault line other → fault ≡ other }
{}
