//! What the statuses of a fault tell, in the words of the streams alone, as laws: the functions do nothing, and
//! their contracts are the laws.
ghost use Rattle.std.specs.Prelude.{◌≡◌, ◌⊎◌, ◌≤◌, ◌+◌, ◌++◌, ◌∷◌, ◌^◌, [], ℕ, Err, List, Option, Some, None, false, length, true, codes, Contains};
ghost use Rattle.std.specs.List.{range_with_len};
ghost use Rattle.std.specs.Fmt.{decimal};
ghost use Rattle.qq_base.specs.declared.ids.NodeId.{NodeId};
ghost use Rattle.qq_base.specs.declared.ids.QueueId.{QueueId};
ghost use Rattle.qq_base.specs.declared.ids.SessionId.{SessionId};
ghost use Rattle.qq_log.specs.declared.op.Op.{Op};
ghost use Rattle.qq_log.specs.Stable.{Stable, stable};
ghost use Rattle.qq_route.specs.declared.setup.Setup.{Setup};
ghost use Rattle.qq_script_lines.specs.declared.fault.ScriptFault.{ScriptFault};
ghost use Rattle.qq_script_lines.specs.declared.fault.ScriptFault.TheVariants.{NoSuch};
ghost use Rattle.qq_script_lines.specs.declared.line.ScriptLine.TheVariants.{Attach};
ghost use Rattle.qq_words.specs.declared.options.Options.{Options};
ghost use Rattle.qq_cluster_model.specs.Cluster.{Setup as ClusterSetup, ClusterEvent, members};
ghost use Rattle.qq_cluster_model.specs.Laws.{IsBegun};
ghost use Rattle.qq_cluster_run.specs.Endings.{fault_text, lost};
ghost use Rattle.qq_cluster_run.specs.Inputs.{Input, inputs_of};
ghost use Rattle.qq_cluster_run.specs.Reading.{Asks, read_input, says};
ghost use Rattle.qq_cluster_run.specs.Runs.{IsSetup};
ghost use Rattle.qq_cluster_run.specs.Serving.{Behind, MayTakeUp, after_all, setup_behind, state_read, text_behind};
ghost use Rattle.qq_cluster_run.specs.Setup.{Logs, cluster_over, cluster_setup, is_change_of};
ghost use Rattle.qq_cluster_run.specs.Statuses.{Had, Account, HasEnded};
ghost use Rattle.qq_cluster_run.specs.Troubles.{Damage, AtPlace, OfVersion, damage_ending, YardFails, DiskFails, FilesBreak, QueueIsFound, NumberEnds, TakerIsGone};

/// A law: what is printed of a node's files that break the rules, and of a queue that is lost.
pub fn closing_lines_name_the_node()
    ensures place { (node file place : ℕ) → (damage_ending node (AtPlace file place)).text
        ≡ codes "damaged node " ++ decimal node ++ codes " log " ++ decimal file
        ++ codes " place " ++ decimal place ++ codes "\n" }
    ensures version { (node file byte : ℕ) → (damage_ending node (OfVersion file byte)).text
        ≡ codes "version node " ++ decimal node ++ codes " log " ++ decimal file
        ++ codes " byte " ++ decimal byte ++ codes "\n" }
    ensures lost { (node noticed found : ℕ) (name : List ℕ) →
        (lost node name noticed found).text
        ≡ codes "lost node " ++ decimal node ++ codes " " ++ name ++ codes " noticed "
        ++ decimal noticed ++ codes " found " ++ decimal found ++ codes "\n" }
{}

/// A law: what status 4 tells. The next line is refused, and its fault is printed: it reads so; or it is to give a
/// consumer a taker, and after the events that served the lines before it none of that number was there.
pub fn refused_lines_are_told()
    ensures { (options : Options) (s : Account) → HasEnded 4 options s →
        (setup : Setup) × IsSetup options setup × ((left : List Input)
        × ((b : Behind (Had s) setup (inputs_of s.bytes) left) × ((input : Input)
        × ((more : List Input) × (left ≡ input ∷ more)) × ((fault : ScriptFault)
        × ((read_input setup (length b.read + 1) input ≡ Err fault)
        ⊎ ((fault ≡ NoSuch) × ((by : SessionId) × ((at : QueueId) × ((tag : ℕ) × ((number : ℕ)
        × (says setup (length b.read) input ≡ Asks (Attach by at tag number))
        × Contains s.troubles (TakerIsGone (setup_behind b) b.events number)))))))
        × (s.new ≡ s.old ++ (text_behind b ++ (codes "line " ++ decimal (length b.read + 1)
        ++ codes ": " ++ fault_text fault ++ codes "\n"))))))) }
{}

/// A law: what statuses 7, 8 and 20 tell.
///
/// - `yard`: the yard has failed, and the last that was printed is `yard fault`. Or each node's disk has; then
///   nothing was read, and this alone was printed.
/// - `damaged`: after some events the files of a node's disk were found to break the rules as is printed last.
/// - `spent`: the number that is printed last is 2^32 - 1, the most messages that a bag holds, or 2^63 or more, and
///   after some events it stood at its end.
pub fn faults_are_told()
    ensures yard { (options : Options) (s : Account) → HasEnded 7 options s →
        (Contains s.troubles YardFails
        × ((said : List ℕ) × (s.new ≡ s.old ++ (said ++ codes "yard fault\n"))))
        ⊎ ((setup : Setup) × IsSetup options setup
        × ((k : ℕ) → Contains (range_with_len 1 setup.nodes) k → Contains s.troubles (DiskFails k))
        × (s.rest ≡ s.bytes) × (s.new ≡ s.old ++ codes "yard fault\n")) }
    ensures damaged { (options : Options) (s : Account) → HasEnded 8 options s →
        (setup : ClusterSetup) × ((events : List ClusterEvent) × ((node : ℕ) × ((damage : Damage)
        × Contains s.troubles (FilesBreak setup events node damage)
        × ((said : List ℕ) × (s.new ≡ s.old ++ (said ++ (damage_ending node damage).text)))))) }
    ensures spent { (options : Options) (s : Account) → HasEnded 20 options s →
        (setup : ClusterSetup) × ((events : List ClusterEvent) × ((number : ℕ)
        × ((number ≡ 4294967295) ⊎ (2 ^ 63 ≤ number))
        × Contains s.troubles (NumberEnds setup events number)
        × ((said : List ℕ)
        × (s.new ≡ s.old ++ (said ++ (codes "spent " ++ decimal number ++ codes "\n")))))) }
{}

/// A law: what status 9 tells. The printed queue is one of the setup's, and what is printed as found recovery has
/// read of it on the printed node.
///
/// At the opening that was before anything had happened. On the first nodes recovery has read of the queue these
/// lanes, or the node's disk has failed. No queue may begin with any logs of changes of the queue that give
/// these lanes, and have no ops where the disk has failed.
///
/// After the lines that were served the node was down when it was recovered, after the restarts of nodes before it,
/// and its member may not take up what recovery has read: it was noticed of more, its log was handed fewer, or its
/// ops give another log.
pub fn lost_queues_are_told()
    ensures { (options : Options) (s : Account) → HasEnded 9 options s →
        (setup : Setup) × IsSetup options setup × (((place : ℕ)
        × Contains (cluster_setup setup).places place × ((first : List ℕ) × ((rest : List ℕ)
        × ((cluster_setup setup).nodes ≡ first ++ rest) × ((lanes : ℕ → Option Stable)
        × ((n : NodeId) → Contains (members (cluster_setup setup) place) n → Contains first n.0 →
        ((lane : Stable) × (lanes n.0 ≡ Some lane)
        × Contains s.troubles (QueueIsFound (cluster_setup setup) [] n.0 place lane))
        ⊎ ((lanes n.0 ≡ None) × Contains s.troubles (DiskFails n.0)))
        × ((logs : Logs) →
        ((k : ℕ) (op : Op) → Contains (logs place k) op → is_change_of (record { 0 = place }) op ≡ true) →
        ((n : NodeId) → Contains (members (cluster_setup setup) place) n → Contains first n.0 →
        stable (logs place n.0) ≡ Some (state_read (lanes n.0))) →
        IsBegun ((cluster_over setup logs).group place) → ⊥)
        × ((node : NodeId) × Contains (members (cluster_setup setup) place) node
        × Contains first node.0 × ((lane : Stable) × (lanes node.0 ≡ Some lane)
        × (s.rest ≡ s.bytes)
        × (s.new ≡ s.old ++ (codes "lost node " ++ decimal node.0 ++ codes " "
        ++ (cluster_setup setup).name place ++ codes " noticed 0 found "
        ++ decimal lane.op ++ codes "\n"))))))))
        ⊎ ((left : List Input)
        × ((b : Behind (Had s) setup (inputs_of s.bytes) left) × ((early : List ClusterEvent)
        × ((node : ℕ) × ((place : ℕ) × Contains (setup_behind b).places place × ((lane : Stable)
        × Contains s.troubles
        (QueueIsFound (setup_behind b) (b.events ++ early) node place lane)
        × ((after_all (setup_behind b) (b.events ++ early)).up node ≡ false)
        × (MayTakeUp node ((after_all (setup_behind b) (b.events ++ early)).queue place) lane → ⊥)
        × (s.new ≡ s.old ++ (text_behind b ++ (codes "lost node " ++ decimal node ++ codes " "
        ++ (setup_behind b).name place ++ codes " noticed "
        ++ decimal (((after_all (setup_behind b) (b.events ++ early)).queue place).group.seat
        node).noticed ++ codes " found " ++ decimal lane.op ++ codes "\n")))))))))) }
{}

/// A law: where a script over one queue is the line `publish a`, which asks for no crash and no restart, these
/// faults come when the cluster is opened: nothing was read, and the closing line alone was printed.
///
/// - `damaged`: of one node, before anything has happened its files break the rules so.
/// - `lost`: recovery has read ops of a queue on a node before anything has happened.
/// - `spent`: of a script without a line.
pub fn faults_come_where_they_are_asked_for()
    ensures yard { (options : Options) (s : Account) → HasEnded 7 options s →
        options.definitions ≡ None → options.queues ≡ 1 → s.bytes ≡ codes "publish a\n" →
        (s.rest ≡ s.bytes) × (s.new ≡ s.old ++ codes "yard fault\n") }
    ensures damaged { (options : Options) (s : Account) → HasEnded 8 options s →
        options.definitions ≡ None → options.nodes ≡ 1 → options.queues ≡ 1 →
        s.bytes ≡ codes "publish a\n" →
        (s.rest ≡ s.bytes) × ((setup : ClusterSetup) × ((damage : Damage)
        × Contains s.troubles (FilesBreak setup [] 1 damage)
        × (s.new ≡ s.old ++ (damage_ending 1 damage).text))) }
    ensures lost { (options : Options) (s : Account) → HasEnded 9 options s →
        options.definitions ≡ None → options.queues ≡ 1 → s.bytes ≡ codes "publish a\n" →
        (s.rest ≡ s.bytes) × ((setup : ClusterSetup) × ((node : ℕ) × ((place : ℕ)
        × ((lane : Stable) × Contains s.troubles (QueueIsFound setup [] node place lane)
        × (s.new ≡ s.old ++ (lost node (setup.name place) 0 lane.op).text))))) }
    ensures spent { (options : Options) (s : Account) → HasEnded 20 options s → s.bytes ≡ [] →
        (s.rest ≡ []) × ((number : ℕ) × ((number ≡ 4294967295) ⊎ (2 ^ 63 ≤ number))
        × (s.new ≡ s.old ++ (codes "spent " ++ decimal number ++ codes "\n"))) }
{}
