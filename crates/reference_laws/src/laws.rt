ghost use Rattle.std.specs.Prelude.{◌≡◌, ◌↔◌, List, true};
ghost use Rattle.reference_graph.specs.declared.graph.Link.{Link};
ghost use Rattle.reference_graph.specs.declared.graph.Node.{Node};
ghost use Rattle.reference_graph.specs.Graphs.{is_endless};
ghost use Rattle.reference_laws.specs.Cycles.{MeetsTwice};

/// References are endless exactly if a chain of them reaches a component or group twice.
pub fn endless_is_to_meet_twice()
    ensures { (graph : List Node) (links : List Link) → (is_endless graph links ≡ true) ↔ MeetsTwice graph links }
{}
