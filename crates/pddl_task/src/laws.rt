ghost use Rattle.std.specs.Prelude.{◌≡◌, Result as Answer};
ghost use Rattle.pddl_parser.specs.declared.texts.DomainText.{DomainText as Domain};
ghost use Rattle.pddl_parser.specs.declared.texts.ProblemText.{ProblemText as Problem};
ghost use Rattle.ground_state.specs.declared.parts.TaskParts.{TaskParts};
ghost use Rattle.ground_state.specs.declared.parts.InstanceParts.{InstanceParts};
ghost use Rattle.pddl_task.specs.declared.refusal.TaskRefusal.{TaskRefusal as Refusal};
ghost use Rattle.pddl_task.specs.Replies.{HasTaskReply, HasInstanceReply};

/// A law: there is at most one answer to the text of a domain. That there is one is not proved; tests of `task` show it.
pub fn at_most_one_task_reply()
    ensures { (domain : Domain) (one other : Answer TaskParts Refusal) →
        HasTaskReply domain one → HasTaskReply domain other → one ≡ other }
{}

/// A law: there is at most one answer to the text of a problem over a domain. That there is one is not proved; tests of
/// `instance` show it.
pub fn at_most_one_instance_reply()
    ensures { (domain : Domain) (problem : Problem) (one other : Answer InstanceParts Refusal) →
        HasInstanceReply domain problem one → HasInstanceReply domain problem other → one ≡ other }
{}
