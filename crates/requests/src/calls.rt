// Any of the calls, by a request, and a preview of it.
ghost use Rattle.std.specs.Prelude.{◌≡◌};
ghost use Rattle.plant.specs.Answer.{told};
ghost use Rattle.plant.specs.Calls.{step, preview_of, outcome_by, told_for};

use plant::{
    Call, Outcome, Plant, Request, accept, draw, feed, give_back, receive, recycle, release, settle,
};

// What the request's call gives on the record.
pub fn answer_request(plant: Plant, request: Request) -> Outcome
    ensures outcome { result ≡ step plant request }
    ensures tells { told result.answer ≡ told_for plant request }
    ensures figures { result.plant.figures ≡ plant.figures }
{
    match request.call {
        Call::Receive => receive(plant, request.sludge),
        Call::Feed(k) => feed(plant, k),
        Call::Settle(gas) => settle(plant, gas, request.digester),
        Call::Return(k) => give_back(plant, k),
        Call::Release(k) => release(plant, k),
        Call::Recycle(k) => recycle(plant, k),
        Call::Draw(k) => draw(plant, k),
        Call::Accept(n) => accept(plant, request.sludge, n),
    }
}

// What the request's call would answer, and the vector that it would hand out; the record comes back as it was handed in.
pub fn preview(plant: Plant, request: Request) -> Outcome
    ensures outcome { result ≡ preview_of plant request }
    ensures tells { told result.answer ≡ told_for plant request }
    ensures figures { result.plant.figures ≡ plant.figures }
{
    answer_entry(plant, request, true)
}

// The call of a request, or a preview of it.
pub fn answer_entry(plant: Plant, request: Request, preview: bool) -> Outcome
    ensures outcome { result ≡ outcome_by plant preview request }
    ensures tells { told result.answer ≡ told_for plant request }
    ensures figures { result.plant.figures ≡ plant.figures }
{
    let mut outcome = answer_request(plant, request);
    if preview {
        outcome.plant = plant;
    }
    outcome
}
