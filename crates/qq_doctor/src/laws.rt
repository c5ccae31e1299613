//! What words say, and what a verdict's line is, as laws: the functions do nothing, and their contracts are the laws.
ghost use Rattle.std.specs.Prelude.{◌≡◌, ◌∷◌, [], Some, None, codes, false, true};
ghost use Rattle.qq_doctor.specs.Report.{verdict_text};
ghost use Rattle.qq_doctor.specs.Words.{read_request};
ghost use Rattle.qq_doctor.specs.declared.verdict.Verdict.TheVariants.{Agree, Differ};

/// A law: what some words say.
pub fn requests_are_read()
    ensures queues { read_request (codes "doctor" ∷ codes "--root" ∷ codes "d" ∷ codes "--nodes=3"
        ∷ codes "--queues" ∷ codes "1024" ∷ [])
        ≡ Some (record {
          root = codes "d";
          options = record {
            nodes = 3;
            group = 3;
            queues = 1024;
            definitions = None;
            ignore_policies = false;
            root = None;
            log_bytes = 4194304;
          };
        }) }
    ensures groups { read_request (codes "doctor" ∷ codes "--group=7" ∷ codes "--queues=1"
        ∷ codes "--nodes" ∷ codes "7" ∷ codes "--root=" ∷ [])
        ≡ Some (record {
          root = [];
          options = record {
            nodes = 7;
            group = 7;
            queues = 1;
            definitions = None;
            ignore_policies = false;
            root = None;
            log_bytes = 4194304;
          };
        }) }
    ensures export { read_request (codes "doctor" ∷ codes "--ignore-policies"
        ∷ codes "--definitions" ∷ codes "a.json" ∷ codes "--nodes=1" ∷ codes "--root=d" ∷ [])
        ≡ Some (record {
          root = codes "d";
          options = record {
            nodes = 1;
            group = 3;
            queues = 1;
            definitions = Some (codes "a.json");
            ignore_policies = true;
            root = None;
            log_bytes = 4194304;
          };
        }) }
{}

/// A law: some words say nothing.
pub fn other_requests_are_refused()
    ensures no_words { read_request [] ≡ None }
    ensures script { read_request (codes "script" ∷ codes "--nodes=3" ∷ []) ≡ None }
    ensures no_root { read_request (codes "doctor" ∷ codes "--nodes=3" ∷ codes "--queues=1" ∷ [])
        ≡ None }
    ensures no_nodes { read_request (codes "doctor" ∷ codes "--root=d" ∷ codes "--queues=1" ∷ [])
        ≡ None }
    ensures no_queues { read_request (codes "doctor" ∷ codes "--root=d" ∷ codes "--nodes=3" ∷ [])
        ≡ None }
    ensures many_nodes { read_request (codes "doctor" ∷ codes "--root=d" ∷ codes "--nodes=8"
        ∷ codes "--queues=1" ∷ []) ≡ None }
    ensures many_queues { read_request (codes "doctor" ∷ codes "--root=d" ∷ codes "--nodes=3"
        ∷ codes "--queues=1025" ∷ []) ≡ None }
    ensures queues_twice { read_request (codes "doctor" ∷ codes "--root=d" ∷ codes "--nodes=3"
        ∷ codes "--queues=1" ∷ codes "--definitions=a" ∷ []) ≡ None }
    ensures group_twice { read_request (codes "doctor" ∷ codes "--root=d" ∷ codes "--nodes=3"
        ∷ codes "--group=3" ∷ codes "--definitions=a" ∷ []) ≡ None }
{}

/// A law: the lines of two verdicts, letter by letter.
pub fn verdicts_are_printed()
    ensures agree { verdict_text (codes "q1") (Agree (record { 0 = 12 })) ≡ codes "agree q1 12\n" }
    ensures differ { verdict_text (codes "q1") (Differ (record { 0 = 2 })
        (record { 0 = 1 }, record { 0 = 1 }) (record { 0 = 2 }, record { 0 = 10 }))
        ≡ codes "differ q1 2 1:1 2:10\n" }
{}
