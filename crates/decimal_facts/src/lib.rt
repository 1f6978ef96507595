#![tactic(auto)]
// Document 01, "Decimal numbers": theorems only; specs/ has the statements, proofs/ the proofs.
