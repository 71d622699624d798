//! Laws of questions. Each is the contract of a function that does nothing.

ghost use Rattle.std.specs.Prelude.{◌≡◌, ◌↔◌, [], List, Option};
ghost use Rattle.sudoers_tree.specs.Line.{Line as LineOf};
ghost use Rattle.sudoers_match_member.specs.declared.request.Request.{Request as RequestOf};
ghost use Rattle.sudoers_match.specs.Answer.{Answer as AnswerOf, IsAnswerToRequest};
ghost use Rattle.sudoers_ask.specs.declared.question.CommandQuestion.{CommandQuestion as QuestionOf};
ghost use Rattle.sudoers_ask.specs.Outcome.{IsAnswerToQuestion, IsRequestForQuestion};

/// Without pairs of folders the answer to a question is that to its request.
pub fn without_pairs_the_answer_is_that_to_the_request()
    ensures { (lines : List LineOf) (question : QuestionOf) (request : RequestOf) (answer : Option AnswerOf) → question.same.now ≡ [] → IsRequestForQuestion question request
        → IsAnswerToQuestion lines question request answer ↔ IsAnswerToRequest lines request answer }
{}
