// Theorems alone: the width table written from what a build leaves gives every glyph's set back. No function is here.
#![tactic(auto)]
