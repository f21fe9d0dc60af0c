ghost use Rattle.std.specs.Prelude.{◌≡◌, ◌≤◌, ◌⊎◌, ◌++◌, ℕ, List, Option, length};
ghost use Rattle.std.specs.Io.KnownBytes.{Appends};
ghost use Rattle.vc_model.specs.Lists.{In};
ghost use Rattle.vc_files.specs.Files.{Bytes, Held, Holds, Lacks, Grows, Added};
ghost use Rattle.vc_files.specs.Sink.{AppendsFront, Rose};

/// A name has the bytes of one file, or of none.
pub fn names_have_one_file()
    ensures one { (files : Held) (name first second : Bytes)
        → Holds files name first → Holds files name second → first ≡ second }
    ensures found { (files : Held) (name : Bytes) → ((bytes : Bytes) × Holds files name bytes) ⊎ Lacks files name }
{}

/// The list of faults over several calls: it grows by names of these calls alone.
pub fn faults_of_calls()
    ensures none { (names old : List Bytes) → Grows names old old }
    ensures more { (first second old middle new : List Bytes)
        → Grows first old middle → Grows second middle new → Grows (first ++ second) old new }
    ensures among { (names wider old new : List Bytes) → ((name : Bytes) → In name names → In name wider)
        → Grows names old new → Grows wider old new }
    ensures longer { (names old new : List Bytes) → Grows names old new → length old ≤ length new }
    ensures added { (names old new : List Bytes) → Grows names old new → (new ≡ old) ⊎ Added old new }
{}

/// A sink over several writes: what it has grows by the pieces in turn, and its count stays risen.
pub fn writes_in_turn()
    ensures all { (old middle new : Option (List ℕ)) (first second : List ℕ)
        → Appends old middle first → Appends middle new second → Appends old new (first ++ second) }
    ensures front { (old middle new : Option (List ℕ)) (first second : List ℕ)
        → Appends old middle first → AppendsFront middle new second → AppendsFront old new (first ++ second) }
    ensures earlier { (before then now : ℕ) → Rose before then → then ≤ now → Rose before now }
    ensures later { (before then now : ℕ) → before ≤ then → Rose then now → Rose before now }
{}
