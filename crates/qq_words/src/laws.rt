//! What words say, as laws: the functions do nothing, and their contracts are the laws.
ghost use Rattle.std.specs.Prelude.{◌≡◌, ◌≤◌, ◌∷◌, [], ℕ, List, Some, None, codes, true, false};
ghost use Rattle.qq_base.specs.declared.ids.NodeId.{NodeId};
ghost use Rattle.qq_words.specs.declared.commands.Command.TheVariants as commands;
ghost use Rattle.qq_words.specs.declared.options.Options.{Options};
ghost use Rattle.qq_words.specs.Words.{read_words};

/// A law: what some words say.
pub fn options_stand_in_any_order()
    ensures none { read_words (codes "script" ∷ [])
        ≡ Some (commands.Script (record {
          nodes = 1;
          group = 3;
          queues = 1;
          definitions = None;
          ignore_policies = false;
          root = None;
          log_bytes = 4194304;
        })) }
    ensures both { read_words (codes "script" ∷ codes "--queues" ∷ codes "1024"
        ∷ codes "--log-bytes=65536" ∷ [])
        ≡ Some (commands.Script (record {
          nodes = 1;
          group = 3;
          queues = 1024;
          definitions = None;
          ignore_policies = false;
          root = None;
          log_bytes = 65536;
        })) }
    ensures turned { read_words (codes "script" ∷ codes "--log-bytes" ∷ codes "67108864"
        ∷ codes "--queues=2" ∷ [])
        ≡ Some (commands.Script (record {
          nodes = 1;
          group = 3;
          queues = 2;
          definitions = None;
          ignore_policies = false;
          root = None;
          log_bytes = 67108864;
        })) }
    ensures nodes { read_words (codes "script" ∷ codes "--group=5" ∷ codes "--nodes"
        ∷ codes "7" ∷ [])
        ≡ Some (commands.Script (record {
          nodes = 7;
          group = 5;
          queues = 1;
          definitions = None;
          ignore_policies = false;
          root = None;
          log_bytes = 4194304;
        })) }
    ensures files { read_words (codes "script" ∷ codes "--root=" ∷ codes "--ignore-policies"
        ∷ codes "--definitions" ∷ codes "a.json" ∷ codes "--nodes=3" ∷ [])
        ≡ Some (commands.Script (record {
          nodes = 3;
          group = 3;
          queues = 1;
          definitions = Some (codes "a.json");
          ignore_policies = true;
          root = Some [];
          log_bytes = 4194304;
        })) }
    ensures dump { read_words (codes "dump" ∷ codes "--node" ∷ codes "7" ∷ codes "--root=-d" ∷ [])
        ≡ Some (commands.Dump (codes "-d") (record { 0 = 7 })) }
    ensures drill { read_words (codes "drill" ∷ codes "7" ∷ []) ≡ Some (commands.Drill 7 3) }
    ensures drill_last { read_words (codes "drill" ∷ codes "--nodes" ∷ codes "5" ∷ codes "1000000000"
        ∷ []) ≡ Some (commands.Drill 1000000000 5) }
    ensures drill_first { read_words (codes "drill" ∷ codes "1" ∷ codes "--nodes=7" ∷ [])
        ≡ Some (commands.Drill 1 7) }
{}

/// A law: some words say nothing.
pub fn other_words_are_refused()
    ensures no_words { read_words [] ≡ None }
    ensures no_command { read_words (codes "--nodes=3" ∷ codes "script" ∷ []) ≡ None }
    ensures two_commands { read_words (codes "script" ∷ codes "dump" ∷ []) ≡ None }
    ensures help { read_words (codes "script" ∷ codes "--help" ∷ []) ≡ None }
    ensures helps { read_words (codes "help" ∷ []) ≡ None }
    ensures version { read_words (codes "--version" ∷ []) ≡ None }
    ensures twice { read_words (codes "script" ∷ codes "--queues=2" ∷ codes "--queues=2" ∷ [])
        ≡ None }
    ensures flag_twice { read_words (codes "script" ∷ codes "--ignore-policies"
        ∷ codes "--ignore-policies" ∷ []) ≡ None }
    ensures flag_value { read_words (codes "script" ∷ codes "--ignore-policies=true" ∷ []) ≡ None }
    ensures no_value { read_words (codes "script" ∷ codes "--queues" ∷ []) ≡ None }
    ensures option_as_value { read_words (codes "script" ∷ codes "--root" ∷ codes "--nodes=3"
        ∷ []) ≡ None }
    ensures sign { read_words (codes "script" ∷ codes "--root" ∷ codes "-v" ∷ []) ≡ None }
    ensures hyphen { read_words (codes "script" ∷ codes "--root" ∷ codes "-" ∷ []) ≡ None }
    ensures ends { read_words (codes "script" ∷ codes "--" ∷ []) ≡ None }
    ensures empty { read_words (codes "script" ∷ codes "--root" ∷ [] ∷ []) ≡ None }
    ensures empty_number { read_words (codes "script" ∷ codes "--queues=" ∷ []) ≡ None }
    ensures zero { read_words (codes "script" ∷ codes "--queues=0" ∷ []) ≡ None }
    ensures leading_zero { read_words (codes "script" ∷ codes "--queues=01" ∷ []) ≡ None }
    ensures plus { read_words (codes "script" ∷ codes "--queues=+1" ∷ []) ≡ None }
    ensures no_node { read_words (codes "script" ∷ codes "--nodes=0" ∷ []) ≡ None }
    ensures many_nodes { read_words (codes "script" ∷ codes "--nodes=8" ∷ []) ≡ None }
    ensures many_members { read_words (codes "script" ∷ codes "--group=8" ∷ []) ≡ None }
    ensures many { read_words (codes "script" ∷ codes "--queues=1025" ∷ []) ≡ None }
    ensures least { read_words (codes "script" ∷ codes "--log-bytes=65535" ∷ []) ≡ None }
    ensures most { read_words (codes "script" ∷ codes "--log-bytes=67108865" ∷ []) ≡ None }
    ensures other { read_words (codes "script" ∷ codes "--node=1" ∷ []) ≡ None }
    ensures short { read_words (codes "script" ∷ codes "-n" ∷ codes "1" ∷ []) ≡ None }
    ensures queues_twice { read_words (codes "script" ∷ codes "--queues=1" ∷ codes "--definitions=a"
        ∷ []) ≡ None }
    ensures group_twice { read_words (codes "script" ∷ codes "--definitions=a" ∷ codes "--group=3"
        ∷ []) ≡ None }
    ensures no_root { read_words (codes "dump" ∷ codes "--node=1" ∷ []) ≡ None }
    ensures no_dumped { read_words (codes "dump" ∷ codes "--root=d" ∷ []) ≡ None }
    ensures dumped { read_words (codes "dump" ∷ codes "--root=d" ∷ codes "--node=8" ∷ []) ≡ None }
    ensures no_drill { read_words (codes "drill" ∷ []) ≡ None }
    ensures two_drills { read_words (codes "drill" ∷ codes "1" ∷ codes "2" ∷ []) ≡ None }
    ensures drill_zero { read_words (codes "drill" ∷ codes "0" ∷ []) ≡ None }
    ensures drill_digits { read_words (codes "drill" ∷ codes "07" ∷ []) ≡ None }
    ensures drills { read_words (codes "drill" ∷ codes "1000000001" ∷ []) ≡ None }
    ensures drilled { read_words (codes "drill" ∷ codes "7" ∷ codes "--nodes=8" ∷ []) ≡ None }
    ensures drill_queues { read_words (codes "drill" ∷ codes "7" ∷ codes "--queues" ∷ codes "2" ∷ [])
        ≡ None }
{}

/// A law: what words say is within the limits.
pub fn options_are_within_limits()
    ensures script { (words : List (List ℕ)) (options : Options)
        → read_words words ≡ Some (commands.Script options)
        → (1 ≤ options.nodes) × (options.nodes ≤ 7) × (1 ≤ options.group) × (options.group ≤ 7)
        × (1 ≤ options.queues) × (options.queues ≤ 1024)
        × (65536 ≤ options.log_bytes) × (options.log_bytes ≤ 67108864) }
    ensures dump { (words : List (List ℕ)) (root : List ℕ) (node : NodeId)
        → read_words words ≡ Some (commands.Dump root node) → (1 ≤ node.0) × (node.0 ≤ 7) }
    ensures drill { (words : List (List ℕ)) (number nodes : ℕ)
        → read_words words ≡ Some (commands.Drill number nodes)
        → (1 ≤ number) × (number ≤ 1000000000) × (1 ≤ nodes) × (nodes ≤ 7) }
{}
