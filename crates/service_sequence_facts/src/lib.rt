#![tactic(auto)]
// Theorems on a stream served by `service::serve` and `keep`, over their contracts alone: it stands under the claim on any sequence of calls. See specs/.
