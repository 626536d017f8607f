// What holds of requests by the definitions alone. This function does nothing: its clauses are the
// laws.
ghost use Rattle.std.specs.Prelude.{◌≡◌, ℕ, List, false, true};
ghost use Rattle.request_model.specs.Request.{flight_of, after_abort};
ghost use Rattle.request_model.specs.Requests.{RequestList, is_in_flight, is_flight_of, opened, aborted, replied, failed};

/// A flight is over after its reply or failure, and after its object is aborted or opened anew.
pub fn what_ends_a_flight()
    ensures reply { (q : RequestList) (r status : ℕ) (text : List ℕ) →
        is_in_flight r q ≡ true → is_in_flight r (replied r status text q) ≡ false }
    ensures failure { (q : RequestList) (r : ℕ) →
        is_in_flight r q ≡ true → is_in_flight r (failed r q) ≡ false }
    ensures abort { (q : RequestList) (x r : ℕ) →
        is_flight_of x r q ≡ true → is_in_flight r (aborted x q) ≡ false }
    ensures open { (q : RequestList) (x r : ℕ) (m u : List ℕ) →
        is_flight_of x r q ≡ true → is_in_flight r (opened x m u q) ≡ false }
{}
