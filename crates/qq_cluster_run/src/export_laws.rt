//! What becomes of an export in a run, as laws: the functions do nothing, and their contracts are the laws.
ghost use Rattle.std.specs.Prelude.{◌≡◌, ◌⊎◌, ◌++◌, [], ℕ, List, Option, Some, None, Ok, Err, codes};
ghost use Rattle.std.specs.Fmt.{decimal};
ghost use Rattle.qq_ports.specs.Streams.{ShelfFails, ShelfState};
ghost use Rattle.qq_route.specs.Setup.{SetupState};
ghost use Rattle.qq_defs.specs.Definitions.{document, read_setup};
ghost use Rattle.qq_defs.specs.declared.fault.DefsFault.{DefsFault};
ghost use Rattle.qq_defs.specs.declared.fault.DefsFault.TheVariants as faults;
ghost use Rattle.qq_words.specs.declared.options.Options.{Options};
ghost use Rattle.qq_cluster_run.specs.Definitions.{made_text, refused_export};
ghost use Rattle.qq_cluster_run.specs.Statuses.{HasEnded, HasEndedOver, SinkRose, Account};

/// A law: what is printed of an export that is refused, and of what was made of one.
pub fn closing_lines_name_the_fault()
    ensures json { refused_export faults.Json
        ≡ record { status = 3; text = codes "definitions: json\n" } }
    ensures object { refused_export faults.NotObject
        ≡ record { status = 3; text = codes "definitions: not-object\n" } }
    ensures missing { (path : List ℕ) → refused_export (faults.Missing path)
        ≡ record { status = 3; text = codes "definitions: missing " ++ path ++ codes "\n" } }
    ensures argument { (name : List ℕ) → refused_export (faults.BadArgument name)
        ≡ record { status = 3; text = codes "definitions: bad-argument " ++ name ++ codes "\n" } }
    ensures unsupported { (name : List ℕ) → refused_export (faults.Unsupported name)
        ≡ record { status = 3; text = codes "definitions: unsupported " ++ name ++ codes "\n" } }
    ensures policies { refused_export faults.Policies
        ≡ record { status = 3; text = codes "definitions: policies\n" } }
    ensures target { (name : List ℕ) → refused_export (faults.UnknownTarget name)
        ≡ record { status = 3; text = codes "definitions: unknown-target " ++ name ++ codes "\n" } }
    ensures limit { (count : ℕ) → refused_export (faults.Limit count)
        ≡ record { status = 11; text = codes "limit queues " ++ decimal count ++ codes "\n" } }
    ensures made { made_text (Some (record {
      queues = 1;
      exchanges = 2;
      bindings = 3;
      skipped_queues = 4;
      skipped_bindings = 5;
      other_vhosts = 6;
    }))
        ≡ codes "made queues 1 exchanges 2 bindings 3 skipped queues 4 bindings 5 other-vhosts 6\n" }
    ensures none { made_text None ≡ [] }
{}

/// A law: what a script comes to, where source, sink and shelf show their bytes.
///
/// - `plain`: without an export it is as all other laws say.
/// - `refused`: status 3 comes only where the words name a file of the shelf that is refused as an export. Nothing
///   was read, and its first fault alone was printed.
/// - `always`: an export that is refused ends the run so, with status 3 or 11, unless the shelf or the sink has
///   failed, or there was no memory.
/// - `made`: else the line of what was made of it was written, and behind that line all is as the other laws say; or
///   the shelf or the sink has failed by then, or there was no memory.
pub fn exports_are_read_first()
    ensures plain { (status : ℕ) (options : Options) (first last : ShelfState) (s : Account) →
        options.definitions ≡ None → HasEndedOver status options first last s →
        HasEnded status options s }
    ensures refused { (options : Options) (first last : ShelfState)
        (files : List ℕ → Option (List ℕ)) (s : Account) → first.files ≡ Some files →
        HasEndedOver 3 options first last s →
        (name : List ℕ) × ((bytes : List ℕ) × ((fault : DefsFault)
        × (options.definitions ≡ Some name) × (files name ≡ Some bytes)
        × (read_setup options.ignore_policies options.nodes options.log_bytes (document bytes)
        ≡ Err fault) × (s.rest ≡ s.bytes) × (s.new ≡ s.old ++ (refused_export fault).text))) }
    ensures always { (status : ℕ) (options : Options) (first last : ShelfState)
        (files : List ℕ → Option (List ℕ)) (s : Account) (name bytes : List ℕ) (fault : DefsFault) →
        first.files ≡ Some files → HasEndedOver status options first last s →
        options.definitions ≡ Some name → files name ≡ Some bytes →
        read_setup options.ignore_policies options.nodes options.log_bytes (document bytes)
        ≡ Err fault → (status ≡ (refused_export fault).status)
        ⊎ (((status ≡ 5) × ShelfFails first last) ⊎ (((status ≡ 6) × SinkRose s) ⊎ (status ≡ 12))) }
    ensures made { (status : ℕ) (options : Options) (first last : ShelfState)
        (files : List ℕ → Option (List ℕ)) (s : Account) (name bytes : List ℕ) (setup : SetupState) →
        first.files ≡ Some files → HasEndedOver status options first last s →
        options.definitions ≡ Some name → files name ≡ Some bytes →
        read_setup options.ignore_policies options.nodes options.log_bytes (document bytes)
        ≡ Ok setup → HasEnded status options (record s { old = s.old ++ made_text setup.made })
        ⊎ (((status ≡ 5) × ShelfFails first last) ⊎ (((status ≡ 6) × SinkRose s) ⊎ (status ≡ 12))) }
{}
