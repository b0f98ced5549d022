ghost use Rattle.std.specs.Prelude.{◌≡◌, ◌↔◌, ℕ, ◌<◌, ◌≤◌, List, Ok, Err, Some, length};
ghost use Rattle.script_reader.specs.Laws.{AreToldApart, ContainLinesAbove, FollowLinesAbove, HaveSmallNumbers};
ghost use Rattle.script_reader.specs.Pieces.{session_of};
ghost use Rattle.script_reader.specs.Reader.{script_of};
ghost use Rattle.script_reader.specs.Script.{HasFault, IsScript, IsScriptOf, most_script_bytes};
ghost use Rattle.script_reader.specs.Sessions.{IsSession};
ghost use Rattle.script_reader.specs.declared.line.Line.{Line};
ghost use Rattle.script_reader.specs.declared.script_fault.ScriptFault.{ScriptFault};
ghost use Rattle.script_reader.specs.declared.why.Why.TheVariants.{Size};

/// The law that more bytes than a script may have are no script.
pub fn long_bytes_are_no_script()
    ensures long { (bytes : List ℕ) → most_script_bytes < length bytes → script_of bytes ≡ Err (record { line = 0; why = Size }) }
    ensures short { (bytes : List ℕ) (lines : List Line) → script_of bytes ≡ Ok lines → length bytes ≤ most_script_bytes }
{}

/// The law that the script which bytes are, or their fault, is the one that the relations name.
pub fn bytes_are_one_script()
    ensures script { (bytes : List ℕ) (lines : List Line) → (script_of bytes ≡ Ok lines) ↔ IsScriptOf bytes lines }
    ensures fault { (bytes : List ℕ) (fault : ScriptFault) → (script_of bytes ≡ Err fault) ↔ HasFault bytes fault }
{}

/// The law that every script keeps the rules.
pub fn scripts_keep_the_rules()
    ensures { (bytes : List ℕ) (lines : List Line) → script_of bytes ≡ Ok lines → IsScript lines }
{}

/// The law that session and place tell the lines of a script apart.
pub fn lines_are_told_apart()
    ensures { (lines : List Line) → IsScript lines → AreToldApart lines }
{}

/// The law that what a line follows stands above it.
pub fn followed_lines_stand_above()
    ensures at { (lines : List Line) → IsScript lines → FollowLinesAbove lines }
    ensures contained { (lines : List Line) → IsScript lines → ContainLinesAbove lines }
{}

/// The law that session and place are numbers of 32 bits.
pub fn numbers_are_small()
    ensures { (lines : List Line) → IsScript lines → HaveSmallNumbers lines }
{}

/// The law that the sessions which there are, are those whose numbers can be written.
pub fn sessions_are_written()
    ensures { (session : ℕ) → IsSession session ↔ ((word : List ℕ) × (session_of word ≡ Some session)) }
{}
