// What holds after every schedule.
ghost use Rattle.std.specs.Prelude.{◌≡◌, ℕ, ◌≤◌, List, length};
ghost use Rattle.g4_store.specs.declared.automaton.Fact.{Fact};
ghost use Rattle.g4_store.specs.declared.automaton.Plan.{Plan};
ghost use Rattle.g4_store.specs.declared.path.Path.{Path};
ghost use Rattle.g4_store.specs.Numbers.{Among};
ghost use Rattle.g4_core.specs.declared.event.Event.{Event};
ghost use Rattle.g4_core.specs.declared.event.Given.{Given};
ghost use Rattle.g4_core.specs.States.{State, IsAsked, Holds, IsSound};
ghost use Rattle.g4_core.specs.Steps.{Runs};
ghost use Rattle.g4_core.specs.Consistent.{IsAnswer};
ghost use Rattle.g4_core.specs.Laws.{IsReached, AllFinished, HaveRoom, AreDone, IsUnion};

use g4_store::automaton::Automaton;

/// After every schedule the automaton is sound and has at most the rows that there may be, it has nothing but paths of questions,
/// each answer is that of its path, and what is filled stays. Once all files are finished, each question is answered and its path
/// learned as far as there was room: where there was room for all, the automaton is the union of the paths.
pub fn schedules<N, C, A: Automaton<N, C>>()
    ensures sound { (plan : Plan N) (files : List (List (Path C))) (s : State N C) → IsReached A.starts A.leads plan files s
        → IsSound A.starts A.leads s }
    ensures room { (plan : Plan N) (files : List (List (Path C))) (s : State N C) → IsReached A.starts A.leads plan files s
        → length s.rows ≤ plan.rows }
    ensures only { (plan : Plan N) (files : List (List (Path C))) (s : State N C) → IsReached A.starts A.leads plan files s
        → (f : Fact C) → Holds s f → IsAsked files f }
    ensures answers { (plan : Plan N) (files : List (List (Path C))) (s : State N C) → IsReached A.starts A.leads plan files s
        → (g : Given) → Among g s.answers → IsAnswer files g }
    ensures kept { (plan : Plan N) (files : List (List (Path C))) (s : State N C) → IsReached A.starts A.leads plan files s
        → (events : List Event) (t : State N C) → Runs s events t → (f : Fact C) → Holds s f → Holds t f }
    ensures done { (plan : Plan N) (files : List (List (Path C))) (s : State N C) → IsReached A.starts A.leads plan files s
        → AllFinished s → AreDone files s }
    ensures union { (plan : Plan N) (files : List (List (Path C))) (s : State N C) → IsReached A.starts A.leads plan files s
        → AllFinished s → HaveRoom plan files → IsUnion files s }
{}
